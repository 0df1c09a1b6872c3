//! Laws of the operations of decoded instructions.

ghost use Rattle.sl_faithful_instructions.specs.Counted.{TreesAreCovered};
ghost use Rattle.sl_faithful_instructions.specs.Laws.{InstructionsAreTranslated};
ghost use Rattle.sl_faithful_instructions.specs.Shaped.{DecodesAreShaped};

/// A decoded tree is a node of the first table, `instruction`: each node is one of a constructor of
/// its table, and below it are nodes of its table operands, in order.
pub fn decodes_are_shaped()
    ensures { DecodesAreShaped }
{}

/// What is counted over the nodes of a tree is within what its tables have, where each constructor's
/// own amount and those of its table operands are within that of its table.
pub fn trees_are_covered()
    ensures { TreesAreCovered }
{}

/// The operations of a decoded instruction, of a specification whose sections keep the rules, are a
/// well-formed list, which does what the instruction does.
pub fn instructions_are_translated()
    ensures { InstructionsAreTranslated }
{}
