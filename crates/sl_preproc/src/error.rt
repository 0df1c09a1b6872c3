//! Why there is no expansion.

ghost use Rattle.std.specs.Prelude.{◌≡◌, Err};
ghost use Rattle.sl_preproc.specs.Readings.{Refusal, refusal};
ghost use Rattle.sl_preproc.specs.Refusals.{RefusesAs};
ghost use Rattle.sl_preproc.specs.Stops.{IsReadFault};
ghost use Rattle.sl_preproc.specs.declared.error.PreError.TheVariants.{NoMemory};

use sl_preproc_directives::fault::Cause;
use std::alloc::{AllocError, Global};

/// Why there is no expansion, with the name of the file as it was fetched and the line there,
/// counted from 1.
#[derive(Debug, Drop)]
pub enum PreError {
    /// The file isn't there. The place is that of its `@include`; the main file has line 0.
    NoFile { file: String, line: u32 },
    /// A file, or the expanded text, has more than 2^24 bytes. An included file has the place of
    /// its `@include`, the main file line 0, and the text the line that brings it past the limit.
    TooLong { file: String, line: u32 },
    /// A file would stand at depth 17. The main file has depth 1.
    IncludeDepth { file: String, line: u32 },
    /// A name that isn't defined is to be replaced or compared.
    UndefinedName { file: String, line: u32 },
    /// A `$(NAME)` stands at the 17th level of replacement.
    ReplaceDepth { file: String, line: u32 },
    /// A live directive is unknown or malformed.
    BadDirective { file: String, line: u32 },
    /// A conditional directive without its group, or after its `@else`, or a group that its file
    /// doesn't close.
    Unbalanced { file: String, line: u32 },
    /// A file couldn't be read.
    ReadFault,
    NoMemory,
}

impl From<AllocError> for PreError {
    ghost from_gives = { λ _ e. e ≡ NoMemory };

    fn from(_error: AllocError) -> PreError {
        PreError::NoMemory
    }
}

/// The refusal of this cause at this line of the file of this name.
pub fn refuse(alloc: Global, cause: Cause, name: &str, line: u32) -> PreError
    ensures refused { RefusesAs {Y = Refusal} result (Err (refusal cause name.now line)) }
    ensures no_read_fault { IsReadFault result → ⊥ }
{
    let Ok(file) = String::from_str(alloc, name) else {
        return PreError::NoMemory;
    };
    match cause {
        Cause::NoFile => PreError::NoFile { file, line },
        Cause::TooLong => PreError::TooLong { file, line },
        Cause::IncludeDepth => PreError::IncludeDepth { file, line },
        Cause::UndefinedName => PreError::UndefinedName { file, line },
        Cause::ReplaceDepth => PreError::ReplaceDepth { file, line },
        Cause::BadDirective => PreError::BadDirective { file, line },
        Cause::Unbalanced => PreError::Unbalanced { file, line },
    }
}
