//! Laws of the instruction of a tree.

ghost use Rattle.sl_meaning_instruction.specs.Laws.{DecodesHaveTables, NumbersAreBelow};
ghost use Rattle.sl_meaning_instruction.specs.Laws.{NumbersAreWithin};

/// Trees side by side have no number of a node in common, and none has that of the node above it.
#[tactic(auto, using(crate::proofs::LawLemmas::numbers_are_within))]
pub fn numbers_are_within()
    ensures { NumbersAreWithin }
{}

/// Each node of an instruction has a number below that of its nodes.
#[tactic(auto, using(crate::proofs::LawLemmas::numbers_are_below))]
pub fn numbers_are_below()
    ensures { NumbersAreBelow }
{}

/// In a decoded instruction each operand that is a table is a node below.
#[tactic(auto, using(crate::proofs::TableLemmas::decodes_have_tables))]
pub fn decodes_have_tables()
    ensures { DecodesHaveTables }
{}
