//! Texts written whole.

ghost use Rattle.std.specs.Prelude.{OnOk, OnErr};
ghost use Rattle.std.specs.Result.{IsErrOf};
ghost use Rattle.std.specs.Io.KnownBytes.{Appends};
ghost use Rattle.sl_outside.specs.Uses.{UsesSink};
ghost use Rattle.sl_list_instructions.specs.Fronts.{AppendsFront};

use crate::listings::ListError;
use sl_outside::{Sink, SinkError};

/// Writes the text, piece by piece. At an `Err` a front of it was written; `WriteFault` comes only
/// where the sink failed.
pub fn write_all<K: Sink>(out: &mut K, text: &[u8]) -> Result<(), ListError>
    ensures whole { OnOk result (Appends (K.taken out.old) (K.taken out.new) text.now) }
    ensures front { OnErr result (AppendsFront (K.taken out.old) (K.taken out.new) text.now) }
    ensures sink { UsesSink K.faults K.calls out.old out.new
        (IsErrOf result ListError.WriteFault) }
{
    let mut at = 0;
    'pieces: while at < text.len() {
        match out.put(&text[at..]) {
            Ok(count) => at += count,
            Err(SinkError::Failed) => return Err(ListError::WriteFault),
            Err(SinkError::NoMemory) => return Err(ListError::NoMemory),
        }
    }
    Ok(())
}
