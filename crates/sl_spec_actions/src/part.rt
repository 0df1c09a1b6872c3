//! A name in a pattern.

use std::marker::Model;

/// A name of a pattern, with how it stands there.
#[derive(Debug, Drop)]
pub struct Part<'a> {
    pub name: &'a [u8],
    /// Alone, and not with a relation.
    pub bare: bool,
    /// Inside `|`.
    pub in_choice: bool,
    /// Right of a `;` whose left side holds a table.
    pub behind_table: bool,
}

impl<'a> Model for Part<'a> {
    ghost use Rattle.sl_spec_actions.specs.Parts as spec;

    ghost Value = { spec.Part };

    ghost view = { λ p. record {
      name = p.name.now;
      bare = p.bare;
      in_choice = p.in_choice;
      behind_table = p.behind_table;
    } };
}
