//! Laws of the definitions.

ghost use Rattle.sl_preproc.specs.Laws.{AsksForFilesOfText, AsksForMainFirst, KeepsLines};

/// The tree of a file's lines, flattened, gives the lines back.
pub fn tree_keeps_lines()
    ensures { KeepsLines }
{}

/// The main file is the first that is asked for.
pub fn main_is_first()
    ensures { AsksForMainFirst }
{}

/// Each file that gives a line to a text was asked for.
pub fn files_are_asked_for()
    ensures { AsksForFilesOfText }
{}
