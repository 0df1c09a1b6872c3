//! Laws of the definitions.

ghost use Rattle.sl_lex.specs.Laws.{EachTextReads, HasOneReading};
ghost use Rattle.sl_lex.specs.Laws.{TokensAreLexemes, TokensAreSlices};

/// Each text reads as tokens to its end, or has a first bad place.
pub fn each_text_reads()
    ensures { EachTextReads }
{}

/// A text has one list of tokens up to its end, or one up to one first bad place, and never both.
pub fn one_reading()
    ensures { HasOneReading }
{}

/// The tokens are slices of the text at their places, in the text's order, and none overlap.
pub fn tokens_are_slices()
    ensures { TokensAreSlices }
{}

/// Each token has the bytes of its kind.
pub fn tokens_are_lexemes()
    ensures { TokensAreLexemes }
{}
