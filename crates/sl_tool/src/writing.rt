//! Texts written whole.

ghost use Rattle.std.specs.Prelude.{OnOk, OnErr, IfErr};
ghost use Rattle.std.specs.Io.KnownBytes.{Appends};
ghost use Rattle.sl_list_instructions.specs.Fronts.{AppendsFront};
ghost use Rattle.sl_outside.specs.Uses.{UsesSink};
ghost use Rattle.sl_tool.specs.Writing.{IsOfWriting};
ghost use Rattle.sl_tool_stages.specs.Outcomes.{FailsToWrite};

use sl_list_instructions::ListError;
use sl_outside::Sink;
use sl_tool_stages::Halt;

/// Writes the text, piece by piece. At an `Err` its first bytes were written, or none.
pub fn write_all<K: Sink>(out: &mut K, text: &[u8]) -> Result<(), Halt>
    ensures whole { OnOk result (Appends (K.taken out.old) (K.taken out.new) text.now) }
    ensures front { OnErr result (AppendsFront (K.taken out.old) (K.taken out.new) text.now) }
    ensures writing { IfErr result IsOfWriting }
    ensures sink { UsesSink K.faults K.calls out.old out.new (FailsToWrite result) }
{
    match sl_list_instructions::write_all(out, text) {
        Ok(()) => Ok(()),
        Err(ListError::WriteFault) => Err(Halt::WriteFault),
        Err(ListError::NoMemory) => Err(Halt::NoMemory),
    }
}
