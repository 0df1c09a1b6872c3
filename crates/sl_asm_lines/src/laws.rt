//! Laws of edited listings.

ghost use Rattle.sl_asm_lines.specs.Laws.{GivenListsAlike, SomeOutcome, UneditedNeverFails};

/// What `list` prints of the image that a text is given has the addresses, the numbers of bytes and
/// the texts of the text's lines.
pub fn given_lists_alike()
    ensures { GivenListsAlike }
{}

/// It can't be that a text is neither given an image nor has a line at fault.
pub fn some_outcome()
    ensures { SomeOutcome }
{}

/// A text that wasn't edited has no line at fault.
pub fn unedited_never_fails()
    ensures { UneditedNeverFails }
{}
