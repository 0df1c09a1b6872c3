//! Names that stand alone in patterns.

ghost use Rattle.std.specs.Prelude.{◌≡◌, MatchOption};
ghost use Rattle.sl_shape_constraints.specs.Sets.{IsCubeOf, IsNowhere};
ghost use Rattle.sl_shape_patterns.specs.Patterns.{NameHolds, hull_named, is_open};
ghost use Rattle.sl_shape_patterns.specs.Views.{reading_of};

use crate::reader::{Lengths, Reader};
use sl_cube::Cube;

/// The cube of all points.
pub fn everywhere() -> Cube
    ensures { IsCubeOf (λ _. Unit {0}) result }
{
    Cube {
        mask: 0,
        value: 0,
        ctx_mask: 0,
        ctx_value: 0,
    }
}

impl<L: Lengths> Reader<'_, '_, L> {
    /// The hull of the table of this name, where it is known.
    pub(crate) fn hull_named(&self, name: &[u8]) -> Option<Cube>
        ensures { result ≡ hull_named (reading_of L.bytes self.now) name.now }
    {
        let tables = self.tables;
        let index = tables.tables.index_of(name)?;
        match self.hulls.get(index) {
            Some(hull) => *hull,
            None => None,
        }
    }

    /// Whether the name holds everywhere.
    pub(crate) fn is_open(&self, name: &[u8]) -> bool
        ensures { result ≡ is_open self.now.tables.now name.now }
    {
        let tables = self.tables;
        name == b"epsilon".as_slice() || tables.fields.has(name)
    }

    /// The points at which the name holds by itself.
    pub(crate) fn name_cube(&self, name: &[u8]) -> Option<Cube>
        ensures { MatchOption result (IsNowhere (NameHolds (reading_of L.bytes self.now) name.now))
            (IsCubeOf (NameHolds (reading_of L.bytes self.now) name.now)) }
    {
        if self.is_open(name) {
            return Some(everywhere());
        }
        self.hull_named(name)
    }
}
