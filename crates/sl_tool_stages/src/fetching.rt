//! Files that are fetched whole.

ghost use Rattle.std.specs.Prelude.{[], ◌∷◌};
ghost use Rattle.sl_outside.specs.Uses.{UsesFiles};
ghost use Rattle.sl_tool_stages.specs.Outcomes.{FailsToRead, IsEarly, Obtains};
ghost use Rattle.sl_tool_stages.specs.Stages.{Fetches};

use crate::halt::Halt;
use crate::problem::Problem;
use crate::refusal::Refusal;
use sl_outside::{FetchError, Files};
use std::alloc::Global;

/// The bytes of the file of this name.
pub fn fetched<F: Files>(alloc: Global, name: &str, files: &mut F) -> Result<Vec<u8>, Halt>
    ensures gives { Obtains (Fetches (F.told files.old) name.now) (λ bytes. bytes.items) result }
    ensures files { UsesFiles F.told F.faults F.asked files.old files.new (name.now ∷ [])
        (IsEarly result) (FailsToRead result) }
{
    let mut bytes = Vec::new(alloc);
    match files.fetch(name, &mut bytes) {
        Ok(()) => Ok(bytes),
        Err(FetchError::Absent) => {
            let refusal = Refusal::of_file(alloc, name, Problem::NoFile)?;
            Err(Halt::Refused(refusal))
        }
        Err(FetchError::TooLong) => {
            let refusal = Refusal::of_file(alloc, name, Problem::TooLong)?;
            Err(Halt::Refused(refusal))
        }
        Err(FetchError::Failed) => Err(Halt::ReadFault),
        Err(FetchError::NoMemory) => Err(Halt::NoMemory),
    }
}
