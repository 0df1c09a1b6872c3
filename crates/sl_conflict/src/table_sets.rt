//! The sets of a table's constructors.

ghost use Rattle.std.specs.Prelude.{◌≡◌, ◌∷◌, [], ◌++◌, OnOk, IfOk};

use sl_cube_sets::CubeSet;
use std::alloc::{AllocError, Global};

/// The constructors of a table by their numbers among all constructors, in the order of the text,
/// and beside them their sets.
#[derive(Debug, Drop)]
pub struct TableSets {
    pub ctors: Vec<u32>,
    pub sets: Vec<CubeSet>,
}

impl TableSets {
    /// A table without constructors.
    pub fn new(alloc: Global) -> Self
        ensures ctors { result.ctors.items ≡ [] }
        ensures sets { result.sets.items ≡ [] }
    {
        TableSets {
            ctors: Vec::new(alloc),
            sets: Vec::new(alloc),
        }
    }

    /// Adds a constructor with its set.
    pub fn add(&mut self, ctor: u32, set: CubeSet) -> Result<(), AllocError>
        ensures ctors { OnOk result (self.new.ctors.items ≡ self.old.ctors.items ++ ctor ∷ []) }
        ensures sets { OnOk result (self.new.sets.items ≡ self.old.sets.items ++ set ∷ []) }
    {
        self.ctors.push(ctor)?;
        self.sets.push(set)?;
        Ok(())
    }
}
