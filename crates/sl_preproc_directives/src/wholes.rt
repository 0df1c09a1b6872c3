//! The whole values of names that were written, so that none is read again.

ghost use Rattle.std.specs.Prelude.{◌≡◌, OnOk, OnErr};
ghost use Rattle.sl_preproc_directives.specs.Parts.{Reads};
ghost use Rattle.sl_preproc_directives.specs.HeldWholes.{wholes_of};
ghost use Rattle.sl_preproc_directives.specs.Wholes.{nothing_known, with_whole};

use std::alloc::{AllocError, Global};
use std::collections::BTreeMap;

/// The whole value of a name, in which each name has its value too.
#[derive(Drop)]
pub struct Whole {
    /// How many levels of replacement it takes.
    pub levels: u32,
    pub text: Vec<u8>,
}

/// The whole values that are known. `wholes_of` is what contracts see.
#[derive(Drop)]
pub struct Wholes {
    names: BTreeMap<Vec<u8>, Whole>,
}

impl Wholes {
    pub fn new(alloc: Global) -> Self
        ensures { wholes_of result ≡ nothing_known }
    {
        Wholes {
            names: BTreeMap::new(alloc),
        }
    }

    /// Forgets all of them, and gives their memory back, so that it takes no longer than to come to
    /// know them.
    pub fn forget(&mut self)
        ensures { wholes_of self.new ≡ nothing_known }
    {
        self.names.clear();
    }

    pub fn get(&self, name: &[u8]) -> Option<&Whole>
        ensures { Reads (λ w. (w.now.levels, w.now.text.items)) result (wholes_of self.now name.now) }
    {
        self.names.get(name)
    }

    pub fn add(
        &mut self,
        alloc: Global,
        name: &[u8],
        levels: u32,
        text: &[u8],
    ) -> Result<(), AllocError>
        ensures added { OnOk result (wholes_of self.new ≡ with_whole name.now (levels, text.now) (wholes_of self.old)) }
        ensures unchanged { OnErr result (wholes_of self.new ≡ wholes_of self.old) }
    {
        let key = Vec::from_slice(alloc, name)?;
        let text = Vec::from_slice(alloc, text)?;
        match self.names.insert(key, Whole { levels, text }) {
            Ok(_) => Ok(()),
            Err(_) => Err(AllocError),
        }
    }
}
