//! Laws of how the trees of packed specifications are spelled.

ghost use Rattle.sl_store_spelling.specs.Laws.{FilesAreSpelled, ReadItemsHaveLeaves};

/// The items of a packed file have at most eight tokens for each of its bytes, and names that are UTF-8 and no longer
/// than the file.
pub fn files_are_spelled()
    ensures { FilesAreSpelled }
{}

/// The items without a fault that the tokens of a text spell have names, texts and numbers as a packed file may have
/// them.
pub fn read_items_have_leaves()
    ensures { ReadItemsHaveLeaves }
{}
