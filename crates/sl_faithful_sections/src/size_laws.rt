//! Laws of the sizes of all sections.

ghost use Rattle.sl_faithful_sections.specs.SizeLaws.{SectionsFitTheWhole};

/// Where the sections of a text have sizes, each has its only ones by the sizes that all tables
/// export in the end, keeps rule 40, and exports what its table does.
pub fn sections_fit_the_whole()
    ensures { SectionsFitTheWhole }
{}
