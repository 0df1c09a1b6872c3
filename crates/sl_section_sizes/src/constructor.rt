//! Constructors with their sections.

use sl_section_flat::Section;

/// A constructor, of whose section sizes are asked. `unimpl` stands as an empty section.
#[derive(Clone, Copy)]
pub struct Constructor<'s, 'a: 's> {
    /// The number of its table.
    pub table: u32,
    /// The tables that its operands are, by the operands' numbers; none for a field and an action.
    pub operands: &'s [Option<u32>],
    pub section: &'s Section<'a>,
}
