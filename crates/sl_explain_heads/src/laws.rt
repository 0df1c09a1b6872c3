//! A law of the lines that tell an item.

ghost use Rattle.sl_explain_heads.specs.Laws.{HeadsAreLines};

/// How an item is told is one line, or none, whatever bytes its tokens have.
pub fn heads_are_lines()
    ensures { HeadsAreLines }
{}
