//! Lists that contracts see as their members.

ghost use Rattle.std.specs.Prelude.{◌≡◌, [], ◌∷◌, ◌++◌, length, slice_get};
ghost use Rattle.std.specs.Prelude.{option_copied, OnOk, OnErr};

use std::alloc::{AllocError, Global};
use std::marker::Model;

/// A list. Contracts see the list of its members, and nothing of its memory.
#[derive(Debug, Drop)]
pub struct Listed<T> {
    members: Vec<T>,
}

impl<T> Model for Listed<T> {
    ghost use Rattle.std.specs.Prelude.{List};
    ghost use Rattle.std.specs.Coded.{coded_list};

    ghost Value = { List T };

    ghost coded = { coded_list T.code };

    ghost view = { λ l. l.members.items };
}

impl<T> Listed<T> {
    pub fn new(alloc: Global) -> Self
        ensures { result ≡ [] }
    {
        Listed {
            members: Vec::new(alloc),
        }
    }

    pub fn as_slice(&self) -> &[T]
        ensures { result.now ≡ self.now }
    {
        self.members.as_slice()
    }

    /// The member at an index.
    pub fn get(&self, index: usize) -> Option<&T>
        ensures { option_copied result ≡ slice_get self.now index }
    {
        self.members.get(index)
    }

    pub fn len(&self) -> usize
        ensures { result ≡ length self.now }
    {
        self.members.len()
    }
}

impl<T: Drop> Listed<T> {
    pub fn push(&mut self, member: T) -> Result<(), AllocError>
        ensures added { OnOk result (self.new ≡ self.old ++ member ∷ []) }
        ensures kept { OnErr result (self.new ≡ self.old) }
    {
        self.members.push(member)?;
        Ok(())
    }
}
