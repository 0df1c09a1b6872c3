//! Laws of the sections of specifications.

ghost use Rattle.sl_faithful_sections.specs.SoundLaws.{SectionsAreSound};

/// Where the rules on tables hold, sections have sizes, and of each constructor it is known what
/// its names are, the sections of a specification are sound.
pub fn sections_are_sound()
    ensures { SectionsAreSound }
{}
