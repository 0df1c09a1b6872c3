//! Laws of the decode.

ghost use Rattle.sl_decode_meaning.specs.Laws.{ChoicesDecide, MeaningsDecide};
ghost use Rattle.sl_decode_meaning.specs.Rules.{GrowsByRules};

/// Choices that agree at each point decode alike.
#[tactic(auto, using(crate::proofs::LawLemmas::choices_decide))]
pub fn choices_decide()
    ensures { ChoicesDecide }
{}

/// Constructors that mean the same decode alike.
#[tactic(auto, using(crate::proofs::LawLemmas::meanings_decide))]
pub fn meanings_decide()
    ensures { MeaningsDecide }
{}

/// Where tables nest at most so deep, what is grown is what the rules say: each operand has its
/// choice at its place and from the context that the one before left, its actions are met and its
/// own operands stand; or the first moment that can't be met is there.
#[tactic(auto, using(crate::proofs::RuleLemmas::grows_by_rules))]
pub fn grows_by_rules()
    ensures { GrowsByRules }
{}
