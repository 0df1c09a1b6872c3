//! Where the definitions of a text lie, and how many there are, where the text keeps the rules.

ghost use Rattle.sl_faithful_places.specs.Laws.{TakenAreDefined, TakenAreFew, TakenAreTexts};
ghost use Rattle.sl_faithful_places.specs.Laws.{TakenHaveSpaces};

/// Where a text keeps rules 1 to 37, its registers and bit ranges lie in spaces, and the registers
/// attached to a field have one size.
#[tactic(auto, using(crate::proofs::PlaceLemmas::taken_are_defined))]
pub fn taken_are_defined()
    ensures { TakenAreDefined }
{}

/// Where a text keeps rules 1 to 37, it has a default space.
#[tactic(auto, using(crate::proofs::SpaceLemmas::taken_have_spaces))]
pub fn taken_have_spaces()
    ensures { TakenHaveSpaces }
{}

/// Where a text keeps rules 1 to 37, it has no more spaces and no more user operations than tokens.
pub fn taken_are_few()
    ensures { TakenAreFew }
{}

/// Where a text keeps rules 1 to 37, and each name that it has is UTF-8, so are the names of its
/// spaces and user operations.
#[tactic(auto, using(crate::proofs::TextLemmas::taken_are_texts))]
pub fn taken_are_texts()
    ensures { TakenAreTexts }
{}
