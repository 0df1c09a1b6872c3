//! Laws of the definitions.

ghost use Rattle.sl_parse_faults.specs.Laws.{AnyHaveTreeOrFault, FaultsAreOne, FaultsHaveCauses, MoreRoomReadsTheSame, TreesHaveNoFault};

/// A reading that doesn't end at a limit is the same within wider limits.
pub fn more_room_reads_the_same()
    ensures { MoreRoomReadsTheSame }
{}

/// What the reader refuses has the fault that is defined by trees alone, at its place.
pub fn faults_have_causes()
    ensures { FaultsHaveCauses }
{}

/// Any symbols are the spelling of a tree without a fault, or have a fault with its place.
pub fn any_have_tree_or_fault()
    ensures { AnyHaveTreeOrFault }
{}

/// What a tree without a fault spells has none.
pub fn trees_have_no_fault()
    ensures { TreesHaveNoFault }
{}

/// Symbols have one fault at most, by its place and its reason.
pub fn faults_are_one()
    ensures { FaultsAreOne }
{}
