//! The last stage: the image beside the sound specification.

ghost use Rattle.std.specs.Prelude.{◌≡◌, ◌+◌, ◌^◌, ◌≤◌, IfOk, [], ◌∷◌, length, map};
ghost use Rattle.sl_decode_meaning.specs.Actions.{address_bytes};
ghost use Rattle.sl_outside.specs.Uses.{UsesFiles};
ghost use Rattle.sl_step_run.specs.Running.{HasRoom};
ghost use Rattle.sl_tool_contexts.specs.Words.{starting_context as context_meant};
ghost use Rattle.sl_tool_request.specs.Views.{field};
ghost use Rattle.sl_tool_request.specs.Views.{target as target_view};
ghost use Rattle.sl_tool_stages.specs.Outcomes.{FailsToRead, Gives, IsEarly, Obtains};
ghost use Rattle.sl_tool_stages.specs.Stages.{Readies, opened, problem_of_word};

use crate::compiled::Compiled;
use crate::fetching::fetched;
use crate::halt::Halt;
use crate::image::prepared;
use crate::problem::Problem;
use crate::refusal::Refusal;
use sl_decode::address_size;
use sl_list_instructions::Image;
use sl_outside::Files;
use sl_spec::Tables;
use sl_tool_contexts::{Cause, starting_context};
use sl_tool_request::{FieldValue, Target};
use std::alloc::Global;

/// An image beside the specification that it is shown by.
#[derive(Drop)]
pub struct Loaded<'s, 'r> {
    /// The specification.
    pub compiled: Compiled<'s, 'r>,
    /// The image, which fits the default space from its base on.
    pub image: Image,
}

/// Why a word for the context is refused.
fn problem_of(cause: Cause) -> Problem
    ensures { result ≡ problem_of_word cause }
{
    match cause {
        Cause::NoField => Problem::NoContextField,
        Cause::OutOfRange => Problem::ValueOutOfRange,
    }
}

/// The context that words give.
pub fn opened(alloc: Global, words: &[FieldValue<'_>], tables: &Tables<'_>) -> Result<u64, Halt>
    ensures { Gives (λ r. r ≡ opened (context_meant tables.now (map field words.now)))
        (λ start. start) result }
{
    match starting_context(tables, words) {
        Ok(start) => Ok(start),
        Err(word) => {
            let refusal = Refusal::of_field(alloc, word.field, problem_of(word.cause))?;
            Err(Halt::Refused(refusal))
        }
    }
}

/// The image of the target's file, where it fits the default space of the tables and the words for
/// the context are taken. What is wrong with the file is refused before a word is.
fn image_of<F: Files>(
    alloc: Global,
    target: &Target<'_>,
    tables: &Tables<'_>,
    files: &mut F,
) -> Result<Image, Halt>
    ensures gives { Obtains (Readies (F.told files.old) (target_view target.now) tables.now)
        (λ image. image) result }
    ensures room { IfOk result (λ i. HasRoom (256 ^ address_bytes tables.now) i.base
        (length i.bytes)) }
    ensures fits { IfOk result (λ i. i.base + length i.bytes ≤ 2 ^ 64) }
    ensures files { UsesFiles F.told F.faults F.asked files.old files.new
        (target.now.image.now ∷ []) (IsEarly result) (FailsToRead result) }
{
    let bytes = fetched(alloc, target.image, files)?;
    let address_bytes = u64::from(address_size(tables).bytes);
    let bytes = prepared(alloc, target, address_bytes, bytes)?;
    let start = opened(alloc, target.context.as_slice(), tables)?;
    Ok(Image {
        bytes,
        base: target.base,
        start,
    })
}

impl<'s, 'r> Loaded<'s, 'r> {
    ghost use Rattle.sl_bind_compile.specs.Compiled.{IsCompiled};
    ghost use Rattle.sl_tool_stages.specs.Loaded.{IsLoaded};
    ghost use Rattle.sl_tool_stages.specs.Stages.{Loads};
    ghost use Rattle.sl_tool_stages.specs.StageViews.{compiled_view, loaded_view};

    /// The image of the target's file beside the specification, where it fits the default space and
    /// the words for the context are taken.
    pub fn read<F: Files>(
        alloc: Global,
        target: &Target<'_>,
        compiled: Compiled<'s, 'r>,
        files: &mut F,
    ) -> Result<Self, Halt>
        requires { IsCompiled compiled.specification }
        ensures gives { Obtains (Loads (F.told files.old) (target_view target.now)
            (compiled_view compiled.entry)) loaded_view result }
        ensures ready { IfOk result IsLoaded }
        ensures files { UsesFiles F.told F.faults F.asked files.old files.new
            (target.now.image.now ∷ []) (IsEarly result) (FailsToRead result) }
    {
        match image_of(alloc, target, &compiled.specification.bound.tables, files) {
            Ok(image) => Ok(Loaded { compiled, image }),
            Err(halt) => Err(halt),
        }
    }
}
