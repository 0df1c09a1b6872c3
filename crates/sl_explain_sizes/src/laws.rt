//! A law of the lines that tell sizes.

ghost use Rattle.sl_explain_sizes.specs.Laws.{SizesAreLines};

/// What is wrong with the sizes of a part is one line, and what to write instead one or none,
/// whatever bytes the text has.
pub fn sizes_are_lines()
    ensures { SizesAreLines }
{}
