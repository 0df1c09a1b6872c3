//! The specification that is generated, as a file.

ghost use Rattle.std.specs.Prelude.{◌≡◌, IfOk, None};
ghost use Rattle.sl_outside.specs.Memory.{folder_of};
ghost use Rattle.sl_outside.specs.Uses.{UsesSink};
ghost use Rattle.sl_tool.specs.Answers.{Answers, generated};
ghost use Rattle.sl_tool.specs.Streams.{Writes};
ghost use Rattle.sl_tool.specs.Growth.{Grew};
ghost use Rattle.sl_tool.specs.Request.{Generate};
ghost use Rattle.sl_tool_stages.specs.Outcomes.{FailsToRead, FailsToWrite};

use crate::answer::answered_from;
use crate::request::Request;
use crate::status::Ending;
use sl_emu::Runner;
use sl_outside::{MemFiles, Sink};
use sl_tool_generator::generated_specification;
use sl_tool_stages::Halt;
use std::alloc::{AllocError, Global};

/// A folder with the generated specification alone.
fn folder(alloc: Global) -> Result<MemFiles, AllocError>
    ensures { IfOk result (λ files. folder_of files ≡ generated) }
{
    let text = generated_specification(alloc)?;
    let mut files = MemFiles::new(alloc);
    files.add("gen", text.as_slice())?;
    Ok(files)
}

/// Answers a request for what is generated. No read fails, since none is listed to fail; so that a
/// failed one is answered as want of memory.
pub fn generated<K: Sink, R: Runner>(
    alloc: Global,
    size: u64,
    out: &mut K,
    runner: &mut R,
) -> Result<Ending, Halt>
    ensures writes { Writes (Answers None (Generate size)) (K.taken out.old) (K.taken out.new)
        (Grew (R.count runner.old) (R.count runner.new)) result }
    ensures sink { UsesSink K.faults K.calls out.old out.new (FailsToWrite result) }
    ensures unread { FailsToRead result → ⊥ }
{
    let mut files = folder(alloc)?;
    let request = Request::Generate(size);
    match answered_from(alloc, &request, &mut files, out, runner) {
        Ok(ending) => Ok(ending),
        Err(Halt::Refused(refusal)) => Err(Halt::Refused(refusal)),
        Err(Halt::WriteFault) => Err(Halt::WriteFault),
        Err(Halt::ReadFault | Halt::NoMemory) => Err(Halt::NoMemory),
    }
}
