//! Laws of the definitions.

ghost use Rattle.sl_section_all.specs.Laws.{NoTableReachesItself};

/// Where rules 32 to 37 hold, no table reaches itself by what the operands of its constructors
/// mean, which is what `shaping_order` asks for.
pub fn no_table_reaches_itself()
    ensures { NoTableReachesItself }
{}
