//! Laws of the lines.

ghost use Rattle.sl_explain_lines.specs.Laws.{SpotsAreLines, WordsAreShown};

/// What is shown of any bytes has no control byte.
pub fn words_are_shown()
    ensures { WordsAreShown }
{}

/// Whatever bytes a text has, what is said of a place in it is whole lines without a control byte.
pub fn spots_are_lines()
    ensures { SpotsAreLines }
{}
