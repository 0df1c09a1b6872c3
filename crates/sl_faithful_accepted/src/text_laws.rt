//! Laws of the instructions of texts.

ghost use Rattle.sl_faithful_accepted.specs.TextLaws.{ChoicesAreOfTables, DecodesAreTranslated, TextsAreTranslated};

/// An instruction of a text that keeps the limits of rules 36 and 38, and of whose sections it is
/// known what they name: its operations are a well-formed list, which does what it does.
pub fn texts_are_translated()
    ensures { TextsAreTranslated }
{}

/// So is each decode of a text at an address, where what is chosen in a table is a constructor of
/// it, by the machine that the text describes.
pub fn decodes_are_translated()
    ensures { DecodesAreTranslated }
{}

/// What is chosen among the numbers of a table is a constructor of the table.
pub fn choices_are_of_tables()
    ensures { ChoicesAreOfTables }
{}
