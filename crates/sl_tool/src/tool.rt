//! The whole call: words, files and an output.

ghost use Rattle.std.specs.Prelude.{◌≡◌, ◌≢◌, IfOk, map, string_bytes};
ghost use Rattle.sl_outside.specs.Uses.{UsesSink};
ghost use Rattle.sl_tool.specs.Ends.{Ends, RunsFor, RunsNothing};
ghost use Rattle.sl_tool.specs.Growth.{Grew};
ghost use Rattle.sl_tool.specs.Request.{request_of as request_meant};
ghost use Rattle.sl_tool.specs.Writing.{IsWritten};
ghost use Rattle.sl_tool.specs.Answers.{told_of};

use crate::answer::answered;
use crate::request::{is_explained, request_of};
use crate::status::{Status, ended};
use crate::writing::write_all;
use sl_emu::Runner;
use sl_outside::{Files, Sink};
use sl_tool_request::USAGE;
use sl_tool_stages::{Halt, Refusal};
use std::alloc::{AllocError, Global};

/// Answers the words of a command line, the program's name first, from these files, and writes the
/// answer to the sink.
///
/// At `Done`, `Refused`, `Usage` and `Stopped` the whole text was written: the listing or the run,
/// the lines that say why the specification or the image is refused, the usage line, or the run up
/// to its fault. The runner's count grew by the operations of p-code that ran, which are none but
/// at `run` and `gen`. At `ReadFault` nothing was written and nothing ran, and a fault of the files
/// was counted in this call. At `WriteFault` the first bytes of the text were written, or none, the
/// runner's count grew as for the whole text, and a fault of the sink was counted in this call. At
/// `NoMemory` the same holds of the text and of the runner's count, or nothing was written.
/// Whatever the status, the runner's count stays but at `run` and `gen`.
pub fn run_tool<F: Files, K: Sink, R: Runner>(
    alloc: Global,
    words: &[String],
    files: &mut F,
    out: &mut K,
    runner: &mut R,
) -> Status
    ensures ends { Ends (F.told files.old) (request_meant (map string_bytes words.now))
        (K.taken out.old) (K.taken out.new) (Grew (R.count runner.old) (R.count runner.new))
        result }
    ensures files { RunsFor F.told F.faults F.asked (request_meant (map string_bytes words.now))
        files.old files.new result }
    ensures sink { UsesSink K.faults K.calls out.old out.new (result ≡ Status.WriteFault) }
    ensures unwritten { result ≡ Status.ReadFault → K.calls out.new ≡ K.calls out.old }
    ensures unrun { RunsNothing (request_meant (map string_bytes words.now))
        → R.count runner.new ≡ R.count runner.old }
{
    let Ok(asked) = request_of(alloc, words) else {
        return Status::NoMemory;
    };
    let Some(request) = asked else {
        return written(out, USAGE.as_bytes(), Status::Usage);
    };
    match answered(alloc, &request, files, out, runner) {
        Ok(ending) => ended(ending),
        Err(Halt::Refused(refusal)) => refused(alloc, is_explained(&request), &refusal, out),
        Err(Halt::ReadFault) => Status::ReadFault,
        Err(Halt::WriteFault) => Status::WriteFault,
        Err(Halt::NoMemory) => Status::NoMemory,
    }
}

/// The text of a refusal, explained or not.
fn told(alloc: Global, explains: bool, refusal: &Refusal) -> Result<Vec<u8>, AllocError>
    ensures { IfOk result (λ text. text.items ≡ told_of explains refusal.now) }
{
    if explains {
        refusal.explained(alloc)
    } else {
        refusal.text(alloc)
    }
}

/// Writes the text of a refusal.
fn refused<K: Sink>(alloc: Global, explains: bool, refusal: &Refusal, out: &mut K) -> Status
    ensures whole { IsWritten (K.taken out.old) (K.taken out.new) (told_of explains refusal.now)
        Status.Refused result }
    ensures sink { UsesSink K.faults K.calls out.old out.new (result ≡ Status.WriteFault) }
{
    match told(alloc, explains, refusal) {
        Ok(text) => written(out, text.as_slice(), Status::Refused),
        Err(_) => Status::NoMemory,
    }
}

/// Writes the text. The status is this one where the whole of it was written.
fn written<K: Sink>(out: &mut K, text: &[u8], wanted: Status) -> Status
    requires { wanted ≢ Status.WriteFault }
    ensures whole { IsWritten (K.taken out.old) (K.taken out.new) text.now wanted result }
    ensures sink { UsesSink K.faults K.calls out.old out.new (result ≡ Status.WriteFault) }
{
    match write_all(out, text) {
        Ok(()) => wanted,
        Err(Halt::WriteFault) => Status::WriteFault,
        Err(_) => Status::NoMemory,
    }
}
