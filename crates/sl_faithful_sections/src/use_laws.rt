//! Laws of the use of tables.

ghost use Rattle.sl_faithful_sections.specs.UseLaws.{TablesAreUsed};

/// By rules 38 and 39 tables that are used export, tables that are assigned stand for no number, and
/// targets of jumps stand for numbers, each directly and through re-exports.
pub fn tables_are_used()
    ensures { TablesAreUsed }
{}
