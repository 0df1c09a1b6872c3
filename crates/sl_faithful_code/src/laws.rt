//! Laws of the code of instructions.

ghost use Rattle.sl_faithful_code.specs.Fitting.{SectionsFit};
ghost use Rattle.sl_faithful_code.specs.Narrow.{NarrowHasLowestBytes};
ghost use Rattle.sl_faithful_code.specs.Nodes.{CodeIsFaithful};

/// A list of well-formed operations that are those of an instruction does what the instruction
/// does, from each memory.
#[tactic(auto, using(crate::proofs::Nodes::code_is_faithful))]
pub fn code_is_faithful()
    ensures { CodeIsFaithful }
{}

/// The lowest bytes of a varnode, as a varnode, have its value, cut to them.
#[tactic(auto, using(crate::proofs::Narrow::narrow_has_lowest_bytes))]
pub fn narrow_has_lowest_bytes()
    ensures { NarrowHasLowestBytes }
{}

/// Where the sizes of a section meet its equations and keep rule 40, and its names keep their
/// rules, each name has the size of its reader, and bits lie in what they are bits of.
#[tactic(auto, using(crate::proofs::FitLemmas::sections_fit))]
pub fn sections_fit()
    ensures { SectionsFit }
{}
