//! A law of the definitions.

ghost use Rattle.sl_shape_patterns.specs.Laws.{EachAsksItsOwn};

/// A pattern asks the hulls of its own tables alone, so that it is read alike when more are known.
pub fn each_asks_its_own()
    ensures { EachAsksItsOwn }
{}
