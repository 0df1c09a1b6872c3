//! Where an instruction, or an edited listing, is assembled.

ghost use Rattle.std.specs.Prelude.{◌≡◌, IfOk};
ghost use Rattle.sl_bind_compile.specs.Compiled.{IsCompiled};
ghost use Rattle.sl_tool_request.specs.Views.{assembly as assembly_view, patch as patch_view};
ghost use Rattle.sl_tool_stages.specs.Assembling.{Bases, Begins, BeginsLines, Permits};
ghost use Rattle.sl_tool_stages.specs.Outcomes.{Gives};
ghost use Rattle.sl_tool_stages.specs.Places.{place_of_ctor};
ghost use Rattle.sl_tool_stages.specs.Problems.{refusal_at};
ghost use Rattle.sl_tool_stages.specs.StageViews.{compiled_view};

use crate::compiled::Compiled;
use crate::facts::Facts;
use crate::halt::Halt;
use crate::image::has_room;
use crate::loaded::opened;
use crate::places::Places;
use crate::problem::Problem;
use crate::refusal::{Refusal, Subject};
use sl_asm_encodings::first_with_action;
use sl_decode::address_size;
use sl_spec::CtorId;
use sl_tool_request::{Assembly, Patch};
use std::alloc::{AllocError, Global};

/// The refusal of the constructor that has an action.
fn acting(alloc: Global, compiled: &Compiled<'_, '_>, ctor: CtorId) -> Result<Refusal, AllocError>
    ensures { IfOk result (λ x. x
        ≡ refusal_at (place_of_ctor (compiled_view compiled.now) ctor) Problem.HasActions) }
{
    let places = Places::of(alloc, compiled)?;
    let place = places.place(alloc, ctor)?;
    let subject = Subject::Line(place);
    let problem = Problem::HasActions;
    let facts = Facts::none(alloc);
    Ok(Refusal {
        subject,
        problem,
        facts,
    })
}

/// Refuses the first constructor that has an action or a `globalset`, where none may have one.
fn permit(alloc: Global, takes_actions: bool, compiled: &Compiled<'_, '_>) -> Result<(), Halt>
    ensures { Gives (Permits takes_actions (compiled_view compiled.now))
        (λ _. compiled_view compiled.now) result }
{
    if takes_actions {
        return Ok(());
    }
    let items = compiled.specification.bound.spec.items.as_slice();
    match first_with_action(alloc, items)? {
        Some(ctor) => {
            let refusal = acting(alloc, compiled, ctor)?;
            Err(Halt::Refused(refusal))
        }
        None => Ok(()),
    }
}

/// Refuses a base that is no address of the default space, or no multiple of the alignment.
fn rest_on(alloc: Global, assembly: &Assembly<'_>, compiled: &Compiled<'_, '_>) -> Result<(), Halt>
    requires { IsCompiled compiled.now.specification }
    ensures { Gives (Bases (assembly_view assembly.now) (compiled_view compiled.now))
        (λ _. compiled_view compiled.now) result }
{
    let tables = &compiled.specification.bound.tables;
    let address_bytes = u64::from(address_size(tables).bytes);
    if !has_room(address_bytes, assembly.base, 0) {
        return Err(Halt::Refused(Refusal::of_base(alloc, Problem::ValueOutOfRange)));
    }
    if assembly.base % u64::from(tables.alignment) > 0 {
        return Err(Halt::Refused(Refusal::of_base(alloc, Problem::Misaligned)));
    }
    Ok(())
}

/// The context in which the instruction is assembled. First the actions of the specification are
/// refused, then the base, and then the words for the context.
pub fn begin(
    alloc: Global,
    assembly: &Assembly<'_>,
    compiled: &Compiled<'_, '_>,
) -> Result<u64, Halt>
    requires { IsCompiled compiled.now.specification }
    ensures { Gives (Begins (assembly_view assembly.now) (compiled_view compiled.now))
        (λ context. context) result }
{
    permit(alloc, assembly.takes_actions, compiled)?;
    rest_on(alloc, assembly, compiled)?;
    let tables = &compiled.specification.bound.tables;
    let context = opened(alloc, assembly.context.as_slice(), tables)?;
    Ok(context)
}

/// The context in which an edited listing is assembled, where no commit counts. First the actions of
/// the specification are refused, and then the words for the context.
pub fn begin_lines(
    alloc: Global,
    patch: &Patch<'_>,
    compiled: &Compiled<'_, '_>,
) -> Result<u64, Halt>
    ensures { Gives (BeginsLines (patch_view patch.now) (compiled_view compiled.now))
        (λ context. context) result }
{
    permit(alloc, patch.takes_actions, compiled)?;
    let tables = &compiled.specification.bound.tables;
    let context = opened(alloc, patch.context.as_slice(), tables)?;
    Ok(context)
}
