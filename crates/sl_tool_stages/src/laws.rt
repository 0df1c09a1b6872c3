//! A law of refusals that are explained.

ghost use Rattle.sl_tool_stages.specs.Laws.{ExplainsInLines};

/// What is printed of a refused specification that is explained is its text, and then whole lines
/// without a control byte, whatever bytes the files have.
pub fn explains_in_lines()
    ensures { ExplainsInLines }
{}
