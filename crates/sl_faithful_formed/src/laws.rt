//! Laws of the lists of operations of instructions.

ghost use Rattle.sl_faithful_formed.specs.Laws.{ListsAreWellFormed};
ghost use Rattle.sl_faithful_formed.specs.Lengths.{ListsAreShort};
ghost use Rattle.sl_faithful_formed.specs.Placed.{SectionsAreFormed};

/// Where the sizes of a section meet its equations and keep rule 40, and what it names is placed,
/// its operations have sizes that they take.
#[tactic(auto, using(crate::proofs::FormLemmas::sections_are_formed))]
pub fn sections_are_formed()
    ensures { SectionsAreFormed }
{}

/// The operations of an instruction are a well-formed list, where names have the size of their
/// readers, what they name lies in its space, and operations have sizes that they take.
#[tactic(auto, using(crate::proofs::Nodes::lists_are_well_formed))]
pub fn lists_are_well_formed()
    ensures { ListsAreWellFormed }
{}

/// The list of an instruction is shorter than relative jumps reach.
#[tactic(auto, using(crate::proofs::LengthLemmas::lists_are_short))]
pub fn lists_are_short()
    ensures { ListsAreShort }
{}
