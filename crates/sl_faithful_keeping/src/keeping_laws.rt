//! Laws of the rules of sections.

ghost use Rattle.sl_faithful_keeping.specs.KeepingLaws.{SectionsKeepRules};

/// A section keeps the rules where its names are those of its operands and of the text, and the
/// tests of rules 38 and 39 hold of it.
pub fn sections_keep_rules()
    ensures { SectionsKeepRules }
{}
