//! Names and size variables of flat sections.

ghost use Rattle.sl_faithful_sections.specs.NameLaws.{FlatsAreNamed, SectionsName, SectionsNumber};

/// Each size variable of a section is below the number of them.
pub fn sections_number()
    ensures { SectionsNumber }
{}

/// Where what is defined lies where it can be, each register and bit range that a section names
/// lies in a space, and each operand is of its kind.
pub fn sections_name()
    ensures { SectionsName }
{}

/// So it is of the flat section of each constructor, of which both are known.
pub fn flats_are_named()
    ensures { FlatsAreNamed }
{}
