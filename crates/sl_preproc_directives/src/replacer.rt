//! The definitions in force, with what is known of them.

ghost use Rattle.sl_preproc_directives.specs.Held.{values_of};
ghost use Rattle.sl_preproc_directives.specs.HeldWholes.{wholes_of};
ghost use Rattle.sl_preproc_directives.specs.Wholes.{AreWholes};

use crate::definitions::Definitions;
use crate::wholes::Wholes;

/// The value of each name that is defined, and the whole values of those that were written since one
/// of these was defined anew.
#[derive(Drop)]
pub struct Replacer {
    pub defs: Definitions,
    pub known: Wholes,
    ghost known_is: { AreWholes (values_of defs) (wholes_of known) },
}
