//! Laws of texts and runs.

ghost use Rattle.sl_emu.specs.Readable.{TextsFixRuns};

/// The text of an operation fixes all that running it uses, where names can be told apart.
pub fn texts_fix_runs()
    ensures { TextsFixRuns }
{}
