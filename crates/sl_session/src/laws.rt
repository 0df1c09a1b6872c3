//! Laws of answers.

ghost use Rattle.sl_session.specs.Laws.{AnswersAreListed, ListedAreAnswers};

/// What is answered at an address of an image is what `list` prints there after the same commits.
#[tactic(auto, using(crate::proofs::LawLemmas::answers_are_listed))]
pub fn answers_are_listed()
    ensures { AnswersAreListed }
{}

/// What `list` prints at an address of an image is what is answered there after the same commits.
#[tactic(auto, using(crate::proofs::LawLemmas::listed_are_answers))]
pub fn listed_are_answers()
    ensures { ListedAreAnswers }
{}
