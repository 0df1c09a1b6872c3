//! Laws of the parts of flat sections.

ghost use Rattle.sl_faithful_limits.specs.PartLaws.{PartsTakeTokens};

/// Each part of a section takes a token of its own, macros taken out call by call, and so does each
/// size variable: rule 38 bounds both.
pub fn parts_take_tokens()
    ensures { PartsTakeTokens }
{}
