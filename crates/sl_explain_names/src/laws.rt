//! A law of the lines that tell a culprit.

ghost use Rattle.sl_explain_names.specs.Laws.{CulpritsAreLines};

/// What is wrong with a culprit is one line, and what to write instead one or none, whatever bytes
/// the text has.
pub fn culprits_are_lines()
    ensures { CulpritsAreLines }
{}
