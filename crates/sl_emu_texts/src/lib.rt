//! What the printed operations of an accepted text fix, as laws.
#![tactic(auto)]

ghost use Rattle.sl_emu_texts.specs.Laws.{FaithfulHaveOperations, LinesFixRuns};
ghost use Rattle.sl_emu_texts.specs.Laws.{ListsAreImplemented, NamesAreReadable};
ghost use Rattle.sl_emu_texts.specs.Laws.{ReadBackIsFaithful, TextsFixOperations};

/// The names of the spaces and of the user operations of an accepted text can be told apart in the
/// text of an operation: no two spaces and no two user operations have one name, no space is called
/// `unique`, and no name has a blank, a comma, a colon or a bracket.
pub fn names_are_readable()
    ensures { NamesAreReadable }
{}

/// Two operations for the machine of an accepted text that are printed alike do the same.
pub fn texts_fix_operations()
    ensures { TextsFixOperations }
{}

/// Two lists of such operations whose lines are the same have the same runs.
pub fn lines_fix_runs()
    ensures { LinesFixRuns }
{}

/// No list of such operations is printed as `  unimplemented`.
pub fn lists_are_implemented()
    ensures { ListsAreImplemented }
{}

/// What `pcode` prints of an instruction are the lines of such operations.
pub fn faithful_have_operations()
    ensures { FaithfulHaveOperations }
{}

/// Whoever reads the lines of an instruction back into such operations has a list that does what
/// the instruction does.
pub fn read_back_is_faithful()
    ensures { ReadBackIsFaithful }
{}
