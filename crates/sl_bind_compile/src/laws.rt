//! Laws of the definitions.

ghost use Rattle.sl_bind_compile.specs.Laws.{HasOneOutcome, HasSomeOutcome};

/// A specification isn't refused and accepted at once, nor refused for two reasons.
pub fn outcome_is_one()
    ensures { HasOneOutcome }
{}

/// It can't be that a specification is neither accepted nor refused.
pub fn some_outcome()
    ensures { HasSomeOutcome }
{}
