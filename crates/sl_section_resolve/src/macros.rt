//! Macros.

use sl_ast::constructors::Macro;
use sl_section_terms::Reach;
use sl_spec::Entry;

/// A macro as it is written, with what is defined before it.
#[derive(Drop)]
pub struct MacroBody<'s, 'a> {
    pub of: &'s Macro<'a>,
    pub reach: Reach,
}

impl<'s, 'a> Entry for MacroBody<'s, 'a> {
    ghost name_of = { λ m. m.of.now.name.now };
}
