//! How long instructions are.

ghost use Rattle.sl_decode_lengths.specs.Laws.{InstructionsHaveBytes};

/// Where the rules of tables are kept, each instruction has a byte at least, and 255 at most.
#[tactic(auto, using(crate::proofs::LengthLemmas::instructions_have_bytes))]
pub fn instructions_have_bytes()
    ensures { InstructionsHaveBytes }
{}
