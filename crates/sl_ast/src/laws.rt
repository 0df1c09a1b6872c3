//! Laws of the definitions.

ghost use Rattle.sl_ast.specs.Laws.{BareBlocksGiveNothing, BothBlocksGive, OwnTableStays};

/// In two blocks the inner table's name wins, patterns nest from the outer block inwards, and the outer actions
/// stand first.
pub fn both_blocks_give()
    ensures { BothBlocksGive }
{}

/// A constructor's own table name wins.
pub fn own_table_stays()
    ensures { OwnTableStays }
{}

/// Blocks that write nothing give nothing, and each constructor keeps its number among all items.
pub fn bare_blocks_give_nothing()
    ensures { BareBlocksGiveNothing }
{}
