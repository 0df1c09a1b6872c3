//! The operands of decoded instructions, and how accepted texts read them.

ghost use Rattle.sl_faithful_accepted.specs.OperandLaws.{DecodesAreGiven, TakenAreRead};

/// The operands of each node of a decoded instruction are of their kinds: registers of the size
/// that the field has, or numbers of 64 bits.
pub fn decodes_are_given()
    ensures { DecodesAreGiven }
{}

/// In a text that keeps rules 1 to 37, each operand that is a field is read in the pattern.
pub fn taken_are_read()
    ensures { TakenAreRead }
{}
