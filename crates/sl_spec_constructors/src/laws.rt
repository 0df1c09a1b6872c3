//! Laws of the definitions.

ghost use Rattle.sl_spec_constructors.specs.Laws.{AddsEachTable, AddsItsTable};

/// Each constructor that is taken adds the name of its table behind those that are there, and the
/// names of all tables of a text are added in the same way: so a table has one number in both.
pub fn tables_stand_in_order()
    ensures step { AddsItsTable }
    ensures all { AddsEachTable }
{}
