//! `asm` with `--lines`: the image of an edited listing.

ghost use Rattle.std.specs.Prelude.{◌≡◌, [], ◌∷◌, IfOk, MatchResult};
ghost use Rattle.sl_asm_lines.specs.Patched.{Fails, Gives as GivesImage};
ghost use Rattle.sl_ast.specs.Views.{items_of};
ghost use Rattle.sl_bind_compile.specs.Compiled.{IsCompiled};
ghost use Rattle.sl_bind_compile.specs.Outcomes.{all_constructors};
ghost use Rattle.sl_outside.specs.Uses.{UsesFiles, UsesSink};
ghost use Rattle.sl_tool.specs.Endings.{shown};
ghost use Rattle.sl_tool.specs.Patched.{PatchesFile, PatchesText, problem_of_line};
ghost use Rattle.sl_tool.specs.Streams.{RanNone, Writes};
ghost use Rattle.sl_tool.specs.declared.status.Ending.TheVariants.{Done};
ghost use Rattle.sl_tool_request.specs.Views.{patch as patch_view};
ghost use Rattle.sl_tool_stages.specs.Outcomes.{FailsToRead, FailsToWrite, Gives, IsEarly};
ghost use Rattle.sl_tool_stages.specs.StageViews.{compiled_view};

use crate::status::Ending;
use crate::writing::write_all;
use sl_asm_lines::{LineError, LineFault, patch_lines};
use sl_bind_compile::Compiled as Specification;
use sl_list_instructions::Disassembly;
use sl_outside::{Files, Sink};
use sl_tool_request::Patch;
use sl_tool_stages::{Compiled, Halt, Problem, Refusal, begin_lines, fetched};
use std::alloc::{AllocError, Global};

/// Writes the image of the listing in the file, or refuses the first line at fault.
pub fn patch<F: Files, K: Sink>(
    alloc: Global,
    patch: &Patch<'_>,
    compiled: &Compiled<'_, '_>,
    files: &mut F,
    out: &mut K,
) -> Result<Ending, Halt>
    requires { IsCompiled compiled.now.specification }
    ensures writes { Writes (PatchesFile (F.told files.old) (patch_view patch.now)
        (compiled_view compiled.now)) (K.taken out.old) (K.taken out.new) RanNone result }
    ensures files { UsesFiles F.told F.faults F.asked files.old files.new
        (patch.now.listing.now ∷ []) (IsEarly result) (FailsToRead result) }
    ensures sink { UsesSink K.faults K.calls out.old out.new (FailsToWrite result) }
    ensures unwritten { FailsToRead result → K.calls out.new ≡ K.calls out.old }
{
    let text = fetched(alloc, patch.listing, files)?;
    let image = patched(alloc, patch, compiled, text.as_slice())?;
    write_all(out, image.as_slice())?;
    Ok(Ending::Done)
}

/// The image of the listing with this text.
fn patched(
    alloc: Global,
    patch: &Patch<'_>,
    compiled: &Compiled<'_, '_>,
    text: &[u8],
) -> Result<Vec<u8>, Halt>
    requires { IsCompiled compiled.now.specification }
    ensures { Gives (PatchesText (patch_view patch.now) (compiled_view compiled.now) text.now)
        (λ image. shown Done image.items 0) result }
{
    let start = begin_lines(alloc, patch, compiled)?;
    let made = image_of(alloc, &compiled.specification, text, start)?;
    match made {
        Ok(image) => Ok(image),
        Err(error) => {
            let problem = problem_of(error.fault);
            let refusal = Refusal::of_line(alloc, patch.listing, error.number as u64, problem)?;
            Err(Halt::Refused(refusal))
        }
    }
}

/// The image of which the text is a listing, from the context `start` on, or the first line at fault.
fn image_of(
    alloc: Global,
    specification: &Specification<'_>,
    text: &[u8],
    start: u64,
) -> Result<Result<Vec<u8>, LineError>, AllocError>
    requires { IsCompiled specification.now }
    ensures { IfOk result (λ r. MatchResult r
        (λ image. GivesImage specification.now.bound.tables
        (all_constructors (items_of specification.now.bound.spec)) start text.now image.items)
        (λ e. Fails specification.now.bound.tables
        (all_constructors (items_of specification.now.bound.spec)) start text.now e.number e.fault)) }
{
    let disassembly = Disassembly::new(alloc, specification)?;
    let found = patch_lines(alloc, specification, &disassembly, text, start)?;
    Ok(found)
}

/// Why a line is refused.
fn problem_of(fault: LineFault) -> Problem
    ensures { result ≡ problem_of_line fault }
{
    match fault {
        LineFault::BadLine => Problem::BadLine,
        LineFault::BadAddress => Problem::BadAddress,
        LineFault::NoEncoding => Problem::NoEncoding,
        LineFault::Undecided => Problem::Undecided,
    }
}
