//! A law of the facts.

ghost use Rattle.sl_explain.specs.Laws.{FactsAreLines};

/// All that more is said of a refusal is whole lines without a control byte, whatever bytes the text
/// has.
pub fn facts_are_lines()
    ensures { FactsAreLines }
{}
