//! Laws of the definitions.

ghost use Rattle.sl_spec_rules.specs.Laws.{EndsAtFirstRefusal, NamesFirstBroken, TakesInParts};

/// The number of the first broken rule is that of a broken rule before which all rules hold; there
/// is none exactly where all hold.
pub fn first_broken_is_first()
    ensures { NamesFirstBroken }
{}

/// Where steps are refused, all steps before some one were taken, and that one is refused so.
pub fn refusal_is_first<S, X>()
    ensures { EndsAtFirstRefusal S X }
{}

/// Steps over a list are those over its front and then those over the rest.
pub fn steps_go_in_parts<S, X, E>()
    ensures { TakesInParts S X E }
{}
