//! A law of the lines that tell a part of a pattern.

ghost use Rattle.sl_explain_patterns.specs.Laws.{PartsAreLines};

/// What is wrong with a part of a pattern is one line, and what to write instead one or none,
/// whatever bytes the text has.
pub fn parts_are_lines()
    ensures { PartsAreLines }
{}
