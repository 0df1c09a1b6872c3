//! What the bytes of an instruction decide.

ghost use Rattle.sl_faithful_reach.specs.InstructionLaws.{BytesDecideInstructions};

/// A decoded tree stands for the same instruction over all bytes that are the same as far as its
/// decode looks.
pub fn bytes_decide_instructions()
    ensures { BytesDecideInstructions }
{}
