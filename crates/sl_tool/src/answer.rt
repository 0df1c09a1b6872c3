//! The answer to a request: the stages of each request, and then those of its kind.

ghost use Rattle.std.specs.Prelude.{◌≡◌, Some};
ghost use Rattle.sl_outside.specs.Uses.{UsesSink};
ghost use Rattle.sl_tool.specs.Answers.{Answers, AnswersFrom, AsksFor, AsksFrom, Follows};
ghost use Rattle.sl_tool.specs.Answers.{UsesFilesFor};
ghost use Rattle.sl_tool.specs.Asking.{AsksAfter};
ghost use Rattle.sl_tool.specs.Ends.{ReadsFiles, RunsNothing};
ghost use Rattle.sl_tool.specs.Streams.{Writes};
ghost use Rattle.sl_tool.specs.Growth.{Grew};
ghost use Rattle.sl_tool.specs.Request.{spec_of};
ghost use Rattle.sl_tool.specs.Requests.{request as request_view};
ghost use Rattle.sl_tool_request.specs.Requests.{PackedFile, TextFile};
ghost use Rattle.sl_tool_stages.specs.Outcomes.{FailsToRead, FailsToWrite, IsEarly};
ghost use Rattle.sl_tool_stages.specs.Packable.{IsPackable};
ghost use Rattle.sl_tool_stages.specs.Stage.{Then};
ghost use Rattle.sl_tool_stages.specs.Stages.{Compiles};
ghost use Rattle.sl_tool_stages.specs.StageViews.{tree_view};

use crate::assemble::assemble;
use crate::check::check;
use crate::figures::figures;
use crate::generated::generated;
use crate::pack::pack;
use crate::patch::patch;
use crate::report::report;
use crate::request::Request;
use crate::show::show;
use crate::status::Ending;
use sl_emu::Runner;
use sl_outside::{Files, Sink};
use sl_tool_request::SpecFile;
use sl_tool_stages::{Compiled, Halt, Source, Tree, fetched};
use std::alloc::Global;

/// Answers the request, and writes the answer. All files are read before the first byte is written.
pub fn answered<F: Files, K: Sink, R: Runner>(
    alloc: Global,
    request: &Request<'_>,
    files: &mut F,
    out: &mut K,
    runner: &mut R,
) -> Result<Ending, Halt>
    ensures writes { Writes (Answers (F.told files.old) (request_view request.now))
        (K.taken out.old) (K.taken out.new) (Grew (R.count runner.old) (R.count runner.new))
        result }
    ensures files { UsesFilesFor F.told F.faults F.asked
        (AsksFor (F.told files.old) (request_view request.now)) files.old files.new
        (IsEarly result) (FailsToRead result) }
    ensures reads { FailsToRead result → ReadsFiles (Some (request_view request.now)) }
    ensures sink { UsesSink K.faults K.calls out.old out.new (FailsToWrite result) }
    ensures unwritten { FailsToRead result → K.calls out.new ≡ K.calls out.old }
    ensures unrun { RunsNothing (Some (request_view request.now))
        → R.count runner.new ≡ R.count runner.old }
{
    match request {
        Request::Generate(size) => generated(alloc, *size, out, runner),
        Request::Check(_, _) => answered_from(alloc, request, files, out, runner),
        Request::Show(_, _) => answered_from(alloc, request, files, out, runner),
        Request::Gaps(_) => answered_from(alloc, request, files, out, runner),
        Request::Pack(_) => answered_from(alloc, request, files, out, runner),
        Request::Assemble(_) => answered_from(alloc, request, files, out, runner),
        Request::Patch(_) => answered_from(alloc, request, files, out, runner),
    }
}

/// Answers the request by these files, which are those of a specification that is generated, too.
pub fn answered_from<F: Files, K: Sink, R: Runner>(
    alloc: Global,
    request: &Request<'_>,
    files: &mut F,
    out: &mut K,
    runner: &mut R,
) -> Result<Ending, Halt>
    ensures writes { Writes (AnswersFrom (F.told files.old) (request_view request.now))
        (K.taken out.old) (K.taken out.new) (Grew (R.count runner.old) (R.count runner.new))
        result }
    ensures files { UsesFilesFor F.told F.faults F.asked
        (AsksFrom (F.told files.old) (request_view request.now)) files.old files.new
        (IsEarly result) (FailsToRead result) }
    ensures sink { UsesSink K.faults K.calls out.old out.new (FailsToWrite result) }
    ensures unwritten { FailsToRead result → K.calls out.new ≡ K.calls out.old }
    ensures unrun { RunsNothing (Some (request_view request.now))
        → R.count runner.new ≡ R.count runner.old }
{
    match request.spec() {
        SpecFile::Text(name) => answered_by_text(alloc, request, name, files, out, runner),
        SpecFile::Packed(name) => answered_by_packed(alloc, request, name, files, out, runner),
    }
}

/// The same where the specification is the text that the main file of this name expands to.
fn answered_by_text<F: Files, K: Sink, R: Runner>(
    alloc: Global,
    request: &Request<'_>,
    name: &str,
    files: &mut F,
    out: &mut K,
    runner: &mut R,
) -> Result<Ending, Halt>
    requires { spec_of (request_view request.now) ≡ TextFile name.now }
    ensures writes { Writes (AnswersFrom (F.told files.old) (request_view request.now))
        (K.taken out.old) (K.taken out.new) (Grew (R.count runner.old) (R.count runner.new))
        result }
    ensures files { UsesFilesFor F.told F.faults F.asked
        (AsksFrom (F.told files.old) (request_view request.now)) files.old files.new
        (IsEarly result) (FailsToRead result) }
    ensures sink { UsesSink K.faults K.calls out.old out.new (FailsToWrite result) }
    ensures unwritten { FailsToRead result → K.calls out.new ≡ K.calls out.old }
    ensures unrun { RunsNothing (Some (request_view request.now))
        → R.count runner.new ≡ R.count runner.old }
{
    let source = Source::read(alloc, name, files)?;
    let tree = Tree::read(alloc, &source)?;
    answered_by(alloc, request, tree, files, out, runner)
}

/// The same where the specification is that of the packed file of this name.
fn answered_by_packed<F: Files, K: Sink, R: Runner>(
    alloc: Global,
    request: &Request<'_>,
    name: &str,
    files: &mut F,
    out: &mut K,
    runner: &mut R,
) -> Result<Ending, Halt>
    requires { spec_of (request_view request.now) ≡ PackedFile name.now }
    ensures writes { Writes (AnswersFrom (F.told files.old) (request_view request.now))
        (K.taken out.old) (K.taken out.new) (Grew (R.count runner.old) (R.count runner.new))
        result }
    ensures files { UsesFilesFor F.told F.faults F.asked
        (AsksFrom (F.told files.old) (request_view request.now)) files.old files.new
        (IsEarly result) (FailsToRead result) }
    ensures sink { UsesSink K.faults K.calls out.old out.new (FailsToWrite result) }
    ensures unwritten { FailsToRead result → K.calls out.new ≡ K.calls out.old }
    ensures unrun { RunsNothing (Some (request_view request.now))
        → R.count runner.new ≡ R.count runner.old }
{
    let bytes = fetched(alloc, name, files)?;
    let tree = Tree::opened(alloc, name, bytes.as_slice())?;
    answered_by(alloc, request, tree, files, out, runner)
}

/// Answers the request by the tree of its specification.
fn answered_by<F: Files, K: Sink, R: Runner>(
    alloc: Global,
    request: &Request<'_>,
    tree: Tree<'_, '_>,
    files: &mut F,
    out: &mut K,
    runner: &mut R,
) -> Result<Ending, Halt>
    requires { IsPackable tree.origin tree.spec }
    ensures writes { Writes (Then Compiles (Follows (F.told files.old) (request_view request.now))
        (tree_view tree.entry)) (K.taken out.old) (K.taken out.new)
        (Grew (R.count runner.old) (R.count runner.new)) result }
    ensures files { UsesFilesFor F.told F.faults F.asked
        (AsksAfter (request_view request.now) (tree_view tree.entry)) files.old files.new
        (IsEarly result) (FailsToRead result) }
    ensures sink { UsesSink K.faults K.calls out.old out.new (FailsToWrite result) }
    ensures unwritten { FailsToRead result → K.calls out.new ≡ K.calls out.old }
    ensures unrun { RunsNothing (Some (request_view request.now))
        → R.count runner.new ≡ R.count runner.old }
{
    let compiled = Compiled::read(alloc, tree)?;
    match request {
        Request::Check(_, explains) => check(alloc, &compiled, *explains, out),
        Request::Show(target, what) => { show(alloc, target, *what, compiled, files, out, runner) }
        Request::Gaps(_) => report(alloc, &compiled, out),
        Request::Pack(_) => pack(alloc, &compiled, out),
        Request::Assemble(assembly) => assemble(alloc, assembly, &compiled, out),
        Request::Patch(listing) => patch(alloc, listing, &compiled, files, out),
        Request::Generate(size) => figures(alloc, *size, &compiled, out, runner),
    }
}
