//! A law of the lines that tell a culprit.

ghost use Rattle.sl_explain_exports.specs.Laws.{CulpritsAreLines};

/// What is wrong with a culprit is one line, and what to write instead one or none, whatever bytes
/// the text has.
pub fn export_culprits_are_lines()
    ensures { CulpritsAreLines }
{}
