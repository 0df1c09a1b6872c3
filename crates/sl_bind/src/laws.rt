//! Laws of the definitions.

ghost use Rattle.sl_bind.specs.Laws.{HasOneVerdict, HasSomeVerdict, TakenAreInOrder};

/// A text has one verdict at most: its tables and sizes, or its first fault.
pub fn verdict_is_one()
    ensures { HasOneVerdict }
{}

/// Each text has a verdict.
pub fn some_verdict()
    ensures { HasSomeVerdict }
{}

/// The tables of a text that keeps rules 1 to 37 have their constructors, operands mean the tables
/// that patterns name, and no table reaches itself.
pub fn taken_are_in_order()
    ensures { TakenAreInOrder }
{}
