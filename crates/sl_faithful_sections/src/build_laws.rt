//! Flat sections of texts that keep the rules.

ghost use Rattle.sl_faithful_sections.specs.BuildLaws.{BuildsAreOnce, ConstantsAreBare};
ghost use Rattle.sl_faithful_sections.specs.BuildLaws.{ExportsArePlaces};
ghost use Rattle.sl_faithful_sections.specs.BuildLaws.{TablesExportAlike};

/// Each section builds each operand once at most.
#[tactic(auto, using(crate::proofs::BoundLemmas::builds_are_once))]
pub fn builds_are_once()
    ensures { BuildsAreOnce }
{}

/// Each constant that a section exports is a number by itself.
#[tactic(auto, using(crate::proofs::BoundLemmas::constants_are_bare))]
pub fn constants_are_bare()
    ensures { ConstantsAreBare }
{}

/// Each name that a section exports stands for a place or a table.
#[tactic(auto, using(crate::proofs::BoundLemmas::exports_are_places))]
pub fn exports_are_places()
    ensures { ExportsArePlaces }
{}

/// Each section that isn't `unimpl` exports where its table has a size.
pub fn tables_export_alike()
    ensures { TablesExportAlike }
{}
