//! A law of the definitions.

ghost use Rattle.sl_tool_request.specs.Parts.{PartsAreThoseOfWords};

/// The words after a command's name are read as the parts that they have, and where they have none
/// they have no meaning. So words have one list of parts at most.
pub fn parts_of_words()
    ensures { PartsAreThoseOfWords }
{}
