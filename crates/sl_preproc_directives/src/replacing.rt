//! Definitions, and the replacement of names by their values.

ghost use Rattle.std.specs.Prelude.{◌≡◌, OnOk};
ghost use Rattle.sl_preproc_directives.specs.Held.{values_of};
ghost use Rattle.sl_preproc_directives.specs.Given.{Gives};
ghost use Rattle.sl_preproc_directives.specs.Pages.{page_of};
ghost use Rattle.sl_preproc_directives.specs.Definitions.{no_definitions, with_value, without};
ghost use Rattle.sl_preproc_directives.specs.Replacement.{write_text};

use crate::definitions::Definitions;
use crate::fault::Fault;
use crate::page::Page;
use crate::replace::write_pieces;
use crate::replacer::Replacer;
use crate::wholes::Wholes;
use std::alloc::{AllocError, Global};

impl Replacer {
    pub fn new(alloc: Global) -> Self
        ensures { values_of result.defs ≡ no_definitions }
    {
        Replacer {
            defs: Definitions::new(alloc),
            known: Wholes::new(alloc),
        }
    }

    /// Gives the name a value, in the place of an earlier one.
    pub fn define(&mut self, alloc: Global, name: &[u8], value: &[u8]) -> Result<(), AllocError>
        ensures { OnOk result (values_of self.new.defs ≡ with_value name.now value.now (values_of self.old.defs)) }
    {
        if self.defs.value(name) == Some(value) {
            return Ok(());
        }
        self.known.forget();
        self.defs.define(alloc, name, value)
    }

    pub fn undefine(&mut self, name: &[u8])
        ensures { values_of self.new.defs ≡ without name.now (values_of self.old.defs) }
    {
        self.known.forget();
        self.defs.undefine(name);
    }

    /// Writes a text with the values of its names, where so many levels are left.
    pub fn write_text(&mut self, left: u32, text: &[u8], page: &mut Page) -> Result<(), Fault>
        ensures defs { values_of self.new.defs ≡ values_of self.old.defs }
        ensures written { Gives (λ _. page_of page.new) result (write_text left (values_of self.old.defs) text.now (page_of page.old)) }
    {
        let _levels = write_pieces(left, &self.defs, &mut self.known, text, page)?;
        Ok(())
    }
}
