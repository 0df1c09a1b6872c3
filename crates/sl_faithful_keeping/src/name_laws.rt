//! Laws of the names of flat sections.

ghost use Rattle.sl_faithful_keeping.specs.NameLaws.{NamesAreKnown};

/// Each name of a flat section is a local, a number, one of the operands, or a register or a bit
/// range of the text; each space and each user operation is one of the text.
pub fn names_are_known()
    ensures { NamesAreKnown }
{}
