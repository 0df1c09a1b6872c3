//! Laws of the text of a run.

ghost use Rattle.sl_step_run.specs.Laws.{CountedIsText, RunTextIsOne, SomeRunText};

/// The run of an image has one text at most, and has stopped or not.
pub fn run_text_is_one()
    ensures { RunTextIsOne }
{}

/// It can't be that it has none, where the specification is sound.
pub fn some_run_text()
    ensures { SomeRunText }
{}

/// A text that tells a run in which operations are counted tells the run.
pub fn counted_is_text()
    ensures { CountedIsText }
{}
