//! Laws of what instructions do.

ghost use Rattle.sl_meaning_sections.specs.Laws.{EndsAtNext, JumpsAreToLabels, LocalsAreOwn};

/// An instruction that has no jump to a label takes none.
#[tactic(auto, using(crate::proofs::LawLemmas::jumps_are_to_labels))]
pub fn jumps_are_to_labels()
    ensures { JumpsAreToLabels }
{}

/// An instruction without jumps out of it, calls and returns goes to `inst_next`, if it doesn't
/// stop.
#[tactic(auto, using(crate::proofs::LawLemmas::ends_at_next))]
pub fn ends_at_next()
    ensures { EndsAtNext }
{}

/// A node's locals are its own: only it, and the nodes above it to which it exports some, change
/// them.
#[tactic(auto, using(crate::proofs::LawLemmas::locals_are_own))]
pub fn locals_are_own()
    ensures { LocalsAreOwn }
{}
