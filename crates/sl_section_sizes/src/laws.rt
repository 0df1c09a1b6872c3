//! Laws of the definitions.

ghost use Rattle.sl_section_sizes.specs.Laws.{HasOneOutcome};

/// The sections of a text don't have sizes and a first fault at once, nor two of either.
pub fn outcome_is_one()
    ensures { HasOneOutcome }
{}
