//! Laws of the limits of decoded trees.

ghost use Rattle.sl_faithful_limits.specs.TreeLaws.{TreesAreLimited};

/// A decoded tree has at most 1,024 nodes, by rule 36, and the sections of its nodes weigh at most
/// 65,536 together, by rule 38.
pub fn trees_are_limited()
    ensures { TreesAreLimited }
{}
