//! A law of fields in words.

ghost use Rattle.sl_explain_points.specs.Laws.{FieldsAreShown};

/// Fields with their values have no control byte, whatever bytes the text has.
pub fn fields_are_shown()
    ensures { FieldsAreShown }
{}
