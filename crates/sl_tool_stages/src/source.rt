//! The first stage: the text that the main file expands to.

ghost use Rattle.std.specs.Prelude.{◌≡◌, string_bytes};
ghost use Rattle.sl_preproc.specs.Expanded.{seen};
ghost use Rattle.sl_preproc.specs.Sound.{IsSound};
ghost use Rattle.sl_tool_stages.specs.Halts.{halt_of};
ghost use Rattle.sl_tool_stages.specs.Problems.{refusal};

use crate::facts::Facts;
use crate::halt::Halt;
use crate::place::{Name, Place};
use crate::problem::Problem;
use crate::refusal::{Refusal, Subject};
use sl_outside::Files;
use sl_preproc::{Expanded, PreError, expand};
use std::alloc::{AllocError, Global};

/// The text that the main file of a specification expands to, beside that file's name.
#[derive(Debug, Drop)]
pub struct Source<'r> {
    /// The name of the main file.
    pub name: &'r str,
    /// The text, with the file and the line that each of its lines comes from.
    pub expanded: Expanded,
    pub ghost sound: { ∥ IsSound (seen expanded) ∥₁ },
}

/// The refusal of a line of this file.
fn refused(alloc: Global, file: String, line: u32, problem: Problem) -> Halt
    ensures { result ≡ Halt.Refused (refusal (string_bytes file) line problem) }
{
    let file = Name::of(file);
    let line = u64::from(line);
    let place = Place { file, line };
    let subject = Subject::Line(place);
    Halt::Refused(Refusal {
        subject,
        problem,
        facts: Facts::none(alloc),
    })
}

/// Why there is no text, for an error of the expansion.
fn halt_of(alloc: Global, error: PreError) -> Halt
    ensures { result ≡ halt_of error }
{
    match error {
        PreError::NoFile { file, line } => refused(alloc, file, line, Problem::NoFile),
        PreError::TooLong { file, line } => refused(alloc, file, line, Problem::TooLong),
        PreError::IncludeDepth { file, line } => refused(alloc, file, line, Problem::IncludeDepth),
        PreError::UndefinedName { file, line } => refused(
            alloc,
            file,
            line,
            Problem::UndefinedName,
        ),
        PreError::ReplaceDepth { file, line } => refused(alloc, file, line, Problem::ReplaceDepth),
        PreError::BadDirective { file, line } => refused(alloc, file, line, Problem::BadDirective),
        PreError::Unbalanced { file, line } => refused(alloc, file, line, Problem::Unbalanced),
        PreError::ReadFault => Halt::ReadFault,
        PreError::NoMemory => Halt::NoMemory,
    }
}

impl<'r> Source<'r> {
    ghost use Rattle.std.specs.Prelude.{◌≡◌, ◌≤◌, ℕ, List, IfOk, length};
    ghost use Rattle.sl_outside.specs.Uses.{UsesFiles};
    ghost use Rattle.sl_preproc.specs.Asks.{AsksFor};
    ghost use Rattle.sl_preproc.specs.Expanded.{seen};
    ghost use Rattle.sl_tool_stages.specs.Outcomes.{FailsToRead, IsEarly, Obtains};
    ghost use Rattle.sl_tool_stages.specs.Places.{place_of_byte};
    ghost use Rattle.sl_tool_stages.specs.SourceView.{source_view};
    ghost use Rattle.sl_tool_stages.specs.Stages.{Expands};

    /// The text that the main file of this name expands to. It is refused at the line of a file at
    /// which the expansion stops; line 0 of the main file is that this file itself can't be had.
    pub fn read<F: Files>(alloc: Global, name: &'r str, files: &mut F) -> Result<Self, Halt>
        ensures gives { Obtains (Expands (F.told files.old) name.now) source_view result }
        ensures files { (names : List (List ℕ)) × AsksFor (F.told files.old) name.now names
            × UsesFiles F.told F.faults F.asked files.old files.new names
            (IsEarly result) (FailsToRead result) }
    {
        match expand(alloc, files, name) {
            Ok(expanded) => Ok(Source { name, expanded }),
            Err(error) => Err(halt_of(alloc, error)),
        }
    }

    /// The bytes of the text.
    pub fn text(&self) -> &[u8]
        ensures { result.now ≡ self.now.expanded.text.items }
    {
        self.expanded.text.as_slice()
    }

    /// The line of a file from which the line of this byte of the text comes.
    pub fn place(&self, alloc: Global, byte: usize) -> Result<Place, AllocError>
        requires { byte ≤ length self.now.expanded.text.items }
        ensures { IfOk result (λ place. place ≡ place_of_byte (seen self.now.expanded) byte) }
    {
        let place = self.expanded.place_of(byte);
        let name = self.expanded.files[place.file as usize].as_str();
        let file = Name::copied(alloc, name)?;
        let line = u64::from(place.line);
        Ok(Place { file, line })
    }
}
