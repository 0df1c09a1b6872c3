//! The tool over a sink that gathers what it takes.

ghost use Rattle.std.specs.Prelude.{◌≡◌, [], map, string_bytes};
ghost use Rattle.std.specs.Io.KnownBytes.{Keeps};
ghost use Rattle.sl_outside.specs.Uses.{UsesSink};
ghost use Rattle.sl_outside_buffered.specs.Buffered.{all_taken, waiting};
ghost use Rattle.sl_tool.specs.Ends.{Ends, RunsFor, RunsNothing};
ghost use Rattle.sl_tool.specs.Growth.{Grew};
ghost use Rattle.sl_tool.specs.Request.{request_of as request_meant};
ghost use Rattle.sleigh.specs.Handed.{HasWhole, IsHanded};

use sl_emu::Runner;
use sl_outside::{Files, Sink, SinkError};
use sl_outside_buffered::BufferedSink;
use sl_tool::{Status, run_tool};
use std::alloc::Global;

/// As `run_tool`, and after a whole text nothing waits, so that all of it stands in the sink behind
/// `out`.
///
/// Where memory ran out, what was written before is handed on, too. Where a writing failed, no
/// further one is tried.
pub fn call_tool<F: Files, K: Sink + Drop, R: Runner>(
    alloc: Global,
    words: &[String],
    files: &mut F,
    out: &mut BufferedSink<K>,
    runner: &mut R,
) -> Status
    ensures ends { Ends (F.told files.old) (request_meant (map string_bytes words.now))
        (all_taken (K.taken out.old.sink) (waiting out.old.handed out.old.gathered.items))
        (all_taken (K.taken out.new.sink) (waiting out.new.handed out.new.gathered.items))
        (Grew (R.count runner.old) (R.count runner.new)) result }
    ensures handed { HasWhole result → waiting out.new.handed out.new.gathered.items ≡ [] }
    ensures files { RunsFor F.told F.faults F.asked (request_meant (map string_bytes words.now))
        files.old files.new result }
    ensures sink { UsesSink (λ b. K.faults b.sink) (λ b. b.calls) out.old out.new
        (result ≡ Status.WriteFault) }
    ensures unwritten { result ≡ Status.ReadFault → out.new.calls ≡ out.old.calls }
    ensures unrun { RunsNothing (request_meant (map string_bytes words.now))
        → R.count runner.new ≡ R.count runner.old }
{
    let status = run_tool(alloc, words, files, out, runner);
    match status {
        Status::Done | Status::Refused | Status::Usage | Status::Stopped => handed_on(out, status),
        Status::NoMemory => {
            let _handed = out.flush();
            status
        }
        Status::ReadFault | Status::WriteFault => status,
    }
}

/// The status of a call that wrote its whole text, as soon as nothing waits.
fn handed_on<K: Sink + Drop>(out: &mut BufferedSink<K>, status: Status) -> Status
    requires { HasWhole status }
    ensures same { Keeps
        (all_taken (K.taken out.old.sink) (waiting out.old.handed out.old.gathered.items))
        (all_taken (K.taken out.new.sink) (waiting out.new.handed out.new.gathered.items)) }
    ensures ends { IsHanded status result (waiting out.new.handed out.new.gathered.items ≡ []) }
    ensures calls { out.new.calls ≡ out.old.calls }
    ensures sink { UsesSink (λ b. K.faults b.sink) (λ b. b.calls) out.old out.new
        (result ≡ Status.WriteFault) }
{
    match out.flush() {
        Ok(()) => status,
        Err(SinkError::Failed) => Status::WriteFault,
        Err(SinkError::NoMemory) => Status::NoMemory,
    }
}
