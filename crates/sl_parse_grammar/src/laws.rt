//! Laws of the definitions.

ghost use Rattle.sl_parse_grammar.specs.Laws.{EachTreeIsRead, FaultsStay, NoneBeginsWithAFault, OnlySpellingsAreRead, SpellsOneTree};

/// Symbols spell at most one tree without a fault.
pub fn one_tree()
    ensures { SpellsOneTree }
{}

/// What a tree without a fault spells is read as that tree.
pub fn trees_are_read()
    ensures { EachTreeIsRead }
{}

/// What is read is a tree without a fault, whose spelling it was.
pub fn only_spellings_are_read()
    ensures { OnlySpellingsAreRead }
{}

/// A fault of syntax or nesting doesn't depend on what stands behind its place.
pub fn faults_stay()
    ensures { FaultsStay }
{}

/// Where the reader finds a fault of syntax or nesting, no tree without a fault begins with the symbols up to
/// that place.
pub fn faults_begin_no_tree()
    ensures { NoneBeginsWithAFault }
{}
