//! Laws of the definitions.

ghost use Rattle.sl_section_sizes.specs.WholeLaws.{SizesAreOfTheWhole};

/// In an order in which each constructor stands behind those of the tables that its operands are,
/// the sizes of each section are the only ones by the sizes that all tables export in the end, and
/// each export has the size that its table exports in the end.
pub fn sizes_are_of_the_whole()
    ensures { SizesAreOfTheWhole }
{}
