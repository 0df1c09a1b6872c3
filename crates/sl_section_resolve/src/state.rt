//! Where a section is read.

use sl_section_terms::Names;

/// The names that are known, the next size variable, and the next number of a macro's call.
#[derive(Drop)]
pub struct State<'a> {
    pub names: Names<'a>,
    pub next: u32,
    pub calls: u32,
}
