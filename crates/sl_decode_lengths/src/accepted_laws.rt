//! The names of patterns, and how long instructions are, where a text keeps the rules.

ghost use Rattle.sl_decode_lengths.specs.AcceptedLaws.{BoundAreTaken, BoundHaveBytes};
ghost use Rattle.sl_decode_lengths.specs.AcceptedLaws.{TakenNamesAgree};

/// The tables and sizes of a text come of tables that keep rules 1 to 37.
#[tactic(auto, using(crate::proofs::AcceptedLemmas::bound_are_taken))]
pub fn bound_are_taken()
    ensures { BoundAreTaken }
{}

/// Where a text keeps rules 1 to 37, each name of a pattern stands for what its place says.
#[tactic(auto, using(crate::proofs::AcceptedLemmas::taken_names_agree))]
pub fn taken_names_agree()
    ensures { TakenNamesAgree }
{}

/// Each instruction of a text that is bound to tables has a byte at least, and 255 at most.
#[tactic(auto, using(crate::proofs::AcceptedLemmas::bound_have_bytes))]
pub fn bound_have_bytes()
    ensures { BoundHaveBytes }
{}
