//! Laws of runs in which operations are counted.

ghost use Rattle.sl_step_run.specs.CountedLaws.{SomeCountedRun, SomeCountedRunText};

/// It can't be that an image has no outcome in which operations are counted, where the text is
/// accepted.
pub fn some_counted_run()
    ensures { SomeCountedRun }
{}

/// It can't be that no text tells its run.
pub fn some_counted_run_text()
    ensures { SomeCountedRunText }
{}
