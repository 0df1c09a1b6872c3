//! Laws of choosers.

ghost use Rattle.sl_choose.specs.Laws.{PicksAreChoices};

/// Where the sets of a chooser are settled at a point, what it picks is their choice: the
/// constructor whose set lies properly within each other set that has the point, or none where no
/// set has it.
#[tactic(auto, using(crate::proofs::PickLemmas::picks_are_choices))]
pub fn picks_are_choices()
    ensures { PicksAreChoices }
{}
