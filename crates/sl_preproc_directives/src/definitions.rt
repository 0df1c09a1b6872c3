//! The definitions in force.

ghost use Rattle.std.specs.Prelude.{◌≡◌, Some, None, OnOk, is_some};
ghost use Rattle.sl_preproc_directives.specs.Parts.{Reads};
ghost use Rattle.sl_preproc_directives.specs.Definitions.{no_definitions, with_value, without};
ghost use Rattle.sl_preproc_directives.specs.Held.{values_of};

use std::alloc::{AllocError, Global};
use std::collections::BTreeMap;

/// The value of each name that is defined. `values_of` is what contracts see. The names are in the
/// order of their bytes, so that no choice of names makes them slow to find.
#[derive(Drop)]
pub struct Definitions {
    values: BTreeMap<Vec<u8>, Vec<u8>>,
}

impl Definitions {
    pub fn new(alloc: Global) -> Self
        ensures { values_of result ≡ no_definitions }
    {
        Definitions {
            values: BTreeMap::new(alloc),
        }
    }

    pub fn value(&self, name: &[u8]) -> Option<&[u8]>
        ensures { Reads (λ v. v.now) result (values_of self.now name.now) }
    {
        match self.values.get(name) {
            Some(value) => Some(value.as_slice()),
            None => None,
        }
    }

    pub fn has(&self, name: &[u8]) -> bool
        ensures { result ≡ is_some (values_of self.now name.now) }
    {
        self.value(name).is_some()
    }

    /// Gives the name a value, in the place of an earlier one.
    pub fn define(&mut self, alloc: Global, name: &[u8], value: &[u8]) -> Result<(), AllocError>
        ensures { OnOk result (values_of self.new ≡ with_value name.now value.now (values_of self.old)) }
    {
        let key = Vec::from_slice(alloc, name)?;
        let value = Vec::from_slice(alloc, value)?;
        match self.values.insert(key, value) {
            Ok(_) => Ok(()),
            Err(_) => Err(AllocError),
        }
    }

    pub fn undefine(&mut self, name: &[u8])
        ensures { values_of self.new ≡ without name.now (values_of self.old) }
    {
        let _value = self.values.remove(name);
    }
}
