//! Laws of the instructions of accepted texts.

ghost use Rattle.sl_faithful_accepted.specs.Laws.{BoundAreParts, BoundAreTranslated};
ghost use Rattle.sl_faithful_accepted.specs.Laws.{BoundHaveTranslations, BoundKeepLimits};
ghost use Rattle.sl_faithful_accepted.specs.Laws.{BoundKeepUses, ChoicesAreOwn};

/// A text that is bound to tables and sizes keeps rules 1 to 40.
#[tactic(auto, using(crate::proofs::Parts::bound_are_parts))]
pub fn bound_are_parts()
    ensures { BoundAreParts }
{}

/// Its tables keep the limits on nodes and weights.
#[tactic(auto, using(crate::proofs::Parts::bound_keep_limits))]
pub fn bound_keep_limits()
    ensures { BoundKeepLimits }
{}

/// Tables are used as rules 38 and 39 say.
pub fn bound_keep_uses()
    ensures { BoundKeepUses }
{}

/// What is chosen in a table is one of its constructors.
pub fn choices_are_own()
    ensures { ChoicesAreOwn }
{}

/// Operations that are those of an instruction of an accepted text, where that isn't unimplemented,
/// are faithful to it: a well-formed list that does what the instruction does, leads to the default
/// space alone, and calls user operations of the text.
pub fn bound_are_translated()
    ensures { BoundAreTranslated }
{}

/// So each such instruction has a list of operations that is faithful to it.
pub fn bound_have_translations()
    ensures { BoundHaveTranslations }
{}
