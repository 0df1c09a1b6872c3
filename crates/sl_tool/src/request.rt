//! What the words of the command line ask for.

ghost use Rattle.std.specs.Prelude.{◌≡◌, IfOk, map, option_map, string_bytes};
ghost use Rattle.sl_tool_request.specs.Views.{request as asked_view, spec_file};
ghost use Rattle.sl_tool.specs.Request.{is_explained, request_for, request_of, spec_of};
ghost use Rattle.sl_tool.specs.Requests.{request};

use sl_tool_request::{Assembly, Patch, Request as Asked, SpecFile, Target};
use std::alloc::{AllocError, Global};

/// What is shown of an image.
#[derive(Clone, Copy, Debug, PartialEq, Eq)]
pub enum Show {
    Listing,
    /// The listing with the operations of each instruction.
    Operations,
    /// The run for at most so many steps.
    Run(u64),
}

/// What is asked for.
#[derive(Debug, Drop)]
pub enum Request<'a> {
    /// Whether the specification of this file is sound, and why not where that is asked for.
    Check(SpecFile<'a>, bool),
    /// What is shown of an image by a specification.
    Show(Target<'a>, Show),
    /// What the specification of this file leaves unmatched.
    Gaps(SpecFile<'a>),
    /// A specification that is generated, with an image of so many instructions, is listed and run.
    Generate(u64),
    /// The specification with this main file is packed.
    Pack(&'a str),
    /// The bytes of an instruction are looked for by its text.
    Assemble(Assembly<'a>),
    /// The image of an edited listing is made.
    Patch(Patch<'a>),
}

impl<'a> Request<'a> {
    /// The file of the specification.
    pub fn spec(&self) -> SpecFile<'a>
        ensures { spec_file result ≡ spec_of (request self.now) }
    {
        match self {
            Request::Check(file, _) => *file,
            Request::Show(target, _) => target.spec,
            Request::Gaps(file) => *file,
            Request::Generate(_) => SpecFile::Text("gen"),
            Request::Pack(name) => SpecFile::Text(*name),
            Request::Assemble(assembly) => assembly.spec,
            Request::Patch(patch) => patch.spec,
        }
    }
}

/// Whether a refusal is explained.
pub fn is_explained(asked: &Request<'_>) -> bool
    ensures { result ≡ is_explained (request asked.now) }
{
    match asked {
        Request::Check(_, explains) => *explains,
        _ => false,
    }
}

/// What the words ask for, as it is answered.
fn request_for(asked: Asked<'_>) -> Request<'_>
    ensures { request result ≡ request_for (asked_view asked.entry) }
{
    match asked {
        Asked::Check(file, explains) => Request::Check(file, explains),
        Asked::List(target) => Request::Show(target, Show::Listing),
        Asked::Pcode(target) => Request::Show(target, Show::Operations),
        Asked::Run(target, steps) => Request::Show(target, Show::Run(steps)),
        Asked::Gen(size) => Request::Generate(size),
        Asked::Gaps(file) => Request::Gaps(file),
        Asked::Pack(name) => Request::Pack(name),
        Asked::Asm(assembly) => Request::Assemble(assembly),
        Asked::Patch(patch) => Request::Patch(patch),
    }
}

/// What the words, the program's name first, ask for.
pub fn request_of<'a>(alloc: Global, words: &'a [String]) -> Result<Option<Request<'a>>, AllocError>
    ensures { IfOk result (λ r.
        option_map request r ≡ request_of (map string_bytes words.entry.now)) }
{
    match sl_tool_words::request_of(alloc, words)? {
        Some(asked) => Ok(Some(request_for(asked))),
        None => Ok(None),
    }
}
