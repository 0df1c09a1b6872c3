//! What is shown of an image: its listing, the listing with operations, or its run.

ghost use Rattle.std.specs.Prelude.{◌≡◌, [], ◌∷◌};
ghost use Rattle.sl_bind_compile.specs.Compiled.{IsCompiled};
ghost use Rattle.sl_outside.specs.Uses.{UsesFiles, UsesSink};
ghost use Rattle.sl_tool_request.specs.Views.{target as target_view};
ghost use Rattle.sl_tool.specs.Answers.{Shows, shows_of};
ghost use Rattle.sl_tool.specs.Ends.{IsStill};
ghost use Rattle.sl_tool.specs.Writing.{listed};
ghost use Rattle.sl_tool.specs.Streams.{RanNone, Streams, Writes};
ghost use Rattle.sl_tool.specs.Growth.{Grew};
ghost use Rattle.sl_tool.specs.Request.{Listing, Operations, Run};
ghost use Rattle.sl_tool.specs.Requests.{show_of};
ghost use Rattle.sl_tool_stages.specs.Loaded.{IsLoaded};
ghost use Rattle.sl_tool_stages.specs.Outcomes.{FailsToRead, FailsToWrite, IsEarly};
ghost use Rattle.sl_tool_stages.specs.Stage.{Then};
ghost use Rattle.sl_tool_stages.specs.Stages.{Loads};
ghost use Rattle.sl_tool_stages.specs.StageViews.{compiled_view, loaded_view};

use crate::request::Show;
use crate::status::{Ending, ending_of};
use crate::writing::write_all;
use sl_emu::Runner;
use sl_list_instructions::{ListError, list_image};
use sl_list_pcode::list_pcode;
use sl_outside::{Files, Sink};
use sl_step_run::run_image;
use sl_tool_request::Target;
use sl_tool_stages::{Compiled, Halt, Loaded};
use std::alloc::Global;

/// Shows the target's image by the specification. `Loaded::read` is the last stage that has the
/// files, and `show_image` the only one that has the sink.
pub fn show<F: Files, K: Sink, R: Runner>(
    alloc: Global,
    target: &Target<'_>,
    what: Show,
    compiled: Compiled<'_, '_>,
    files: &mut F,
    out: &mut K,
    runner: &mut R,
) -> Result<Ending, Halt>
    requires { IsCompiled compiled.specification }
    ensures writes { Writes (Then (Loads (F.told files.old) (target_view target.now))
        (Shows (shows_of (show_of what))) (compiled_view compiled.entry)) (K.taken out.old)
        (K.taken out.new) (Grew (R.count runner.old) (R.count runner.new)) result }
    ensures files { UsesFiles F.told F.faults F.asked files.old files.new
        (target.now.image.now ∷ []) (IsEarly result) (FailsToRead result) }
    ensures sink { UsesSink K.faults K.calls out.old out.new (FailsToWrite result) }
    ensures unwritten { FailsToRead result → K.calls out.new ≡ K.calls out.old }
    ensures unrun { IsStill (show_of what) → R.count runner.new ≡ R.count runner.old }
{
    let loaded = Loaded::read(alloc, target, compiled, files)?;
    show_image(alloc, what, &loaded, out, runner)
}

/// Writes what is shown of the image.
fn show_image<K: Sink, R: Runner>(
    alloc: Global,
    what: Show,
    loaded: &Loaded<'_, '_>,
    out: &mut K,
    runner: &mut R,
) -> Result<Ending, Halt>
    requires { IsLoaded loaded.now }
    ensures streams { Streams (shows_of (show_of what) (loaded_view loaded.now)) (K.taken out.old)
        (K.taken out.new) (Grew (R.count runner.old) (R.count runner.new)) result }
    ensures sink { UsesSink K.faults K.calls out.old out.new (FailsToWrite result) }
    ensures unrun { IsStill (show_of what) → R.count runner.new ≡ R.count runner.old }
{
    match what {
        Show::Listing => write_listing(alloc, loaded, out),
        Show::Operations => write_operations(alloc, loaded, out),
        Show::Run(steps) => write_run(alloc, steps, loaded, out, runner),
    }
}

/// The ending of a listing that is written line by line.
fn listed(written: Result<(), ListError>) -> Result<Ending, Halt>
    ensures { result ≡ listed written }
{
    match written {
        Ok(()) => Ok(Ending::Done),
        Err(ListError::WriteFault) => Err(Halt::WriteFault),
        Err(ListError::NoMemory) => Err(Halt::NoMemory),
    }
}

/// Writes the listing of the image.
fn write_listing<K: Sink>(
    alloc: Global,
    loaded: &Loaded<'_, '_>,
    out: &mut K,
) -> Result<Ending, Halt>
    requires { IsLoaded loaded.now }
    ensures streams { Streams (shows_of Listing (loaded_view loaded.now))
        (K.taken out.old) (K.taken out.new) RanNone result }
    ensures sink { UsesSink K.faults K.calls out.old out.new (FailsToWrite result) }
{
    let written = list_image(alloc, &loaded.compiled.specification, &loaded.image, out);
    listed(written)
}

/// Writes the listing with the operations of each instruction.
fn write_operations<K: Sink>(
    alloc: Global,
    loaded: &Loaded<'_, '_>,
    out: &mut K,
) -> Result<Ending, Halt>
    requires { IsLoaded loaded.now }
    ensures streams { Streams (shows_of Operations (loaded_view loaded.now))
        (K.taken out.old) (K.taken out.new) RanNone result }
    ensures sink { UsesSink K.faults K.calls out.old out.new (FailsToWrite result) }
{
    let written = list_pcode(alloc, &loaded.compiled.specification, &loaded.image, out);
    listed(written)
}

/// Writes the run of the image for at most so many steps.
fn write_run<K: Sink, R: Runner>(
    alloc: Global,
    steps: u64,
    loaded: &Loaded<'_, '_>,
    out: &mut K,
    runner: &mut R,
) -> Result<Ending, Halt>
    requires { IsLoaded loaded.now }
    ensures streams { Streams (shows_of (Run steps) (loaded_view loaded.now)) (K.taken out.old)
        (K.taken out.new) (Grew (R.count runner.old) (R.count runner.new)) result }
    ensures sink { UsesSink K.faults K.calls out.old out.new (FailsToWrite result) }
{
    let specification = &loaded.compiled.specification;
    let ran = run_image(alloc, specification, &loaded.image, steps, runner)?;
    write_all(out, ran.text.as_slice())?;
    Ok(ending_of(ran.stopped))
}
