//! A law of the lines of notes.

ghost use Rattle.sl_explain_notes.specs.Laws.{NotesAreLines};

/// The notes on a text are whole lines without a control byte, whatever bytes the text has.
pub fn notes_are_lines()
    ensures { NotesAreLines }
{}
