//! The third stage: the tree that the tokens spell, or that a packed file holds.

ghost use Rattle.std.specs.Prelude.{◌≡◌};
ghost use Rattle.sl_ast.specs.Views.{indexes_of, items_of};
ghost use Rattle.sl_faithful_accepted.specs.Laws.{IsShort};
ghost use Rattle.sl_tool_stages.specs.Halts.{first_fault, unopened};
ghost use Rattle.sl_tool_stages.specs.OriginView.{origin_view};
ghost use Rattle.sl_tool_stages.specs.Places.{indexes_in};

use crate::facts::Facts;
use crate::halt::Halt;
use crate::origin::{Origin, Stored};
use crate::problem::Problem;
use crate::refusal::{Refusal, Subject};
use crate::source::Source;
use crate::tokens::Tokens;
use sl_ast::items::Spec;
use sl_explain::push_parse_facts;
use sl_parse::{ParseError, parse};
use sl_store::{UnpackError, unpack};
use std::alloc::Global;

/// The tree of a specification, and where its items are. Each item has the index by which its place
/// is told. It is short: it has no more than 2^32 tokens.
#[derive(Drop)]
pub struct Tree<'s, 'r> {
    /// Where the items are.
    pub origin: Origin<'s, 'r>,
    /// The items.
    pub spec: Spec<'s>,
    pub ghost indexes: { indexes_of spec ≡ indexes_in (origin_view origin) (items_of spec) },
    pub ghost short: { IsShort (items_of spec) },
}

/// The token's index and the problem of an error of the parser, unless memory ran out.
fn first_fault(error: ParseError) -> Option<(usize, Problem)>
    ensures { result ≡ first_fault error }
{
    match error {
        ParseError::Syntax(at) => Some((at, Problem::Syntax)),
        ParseError::Nesting(at) => Some((at, Problem::Nesting)),
        ParseError::NotSupported { feature, token } => {
            Some((token, Problem::NotSupported(feature)))
        }
        ParseError::NoMemory => None,
    }
}

/// The problem of bytes that aren't opened, unless memory ran out.
fn unopened(error: UnpackError) -> Option<Problem>
    ensures { result ≡ unopened error }
{
    match error {
        UnpackError::NotPacked => Some(Problem::NotPacked),
        UnpackError::Cut => Some(Problem::Cut),
        UnpackError::Damaged(at) => Some(Problem::Damaged(at as u64)),
        UnpackError::NoMemory => None,
    }
}

impl<'s, 'r> Tree<'s, 'r> {
    ghost use Rattle.std.specs.Prelude.{◌≤◌, length};
    ghost use Rattle.sl_outside.specs.Folder.{size_limit};
    ghost use Rattle.sl_tool_stages.specs.Outcomes.{Gives};
    ghost use Rattle.sl_tool_stages.specs.SourceView.{source_view};
    ghost use Rattle.sl_tool_stages.specs.Stage.{Then};
    ghost use Rattle.sl_tool_stages.specs.Stages.{Parses, Tokenizes, Unpacks};
    ghost use Rattle.sl_tool_stages.specs.StageViews.{tree_view};
    ghost use Rattle.sl_tool_stages.specs.TokensView.{tokens_view};

    /// The tree that the tokens of the text spell. It is refused as [`Tokens::read`] refuses, or at
    /// the line of the token with which no specification goes on, or which goes past a limit of the
    /// language or begins an unsupported form.
    pub fn read(alloc: Global, source: &'s Source<'r>) -> Result<Self, Halt>
        ensures { Gives (Then Tokenizes Parses (source_view source.now)) tree_view result }
    {
        let tokens = Tokens::read(alloc, source)?;
        let tree = Self::of(alloc, tokens)?;
        Ok(tree)
    }

    /// The tree that the tokens spell.
    fn of(alloc: Global, tokens: Tokens<'s, 'r>) -> Result<Self, Halt>
        ensures { Gives (Parses (tokens_view tokens.entry)) tree_view result }
    {
        match parse(alloc, tokens.tokens.as_slice()) {
            Ok(spec) => Ok(Tree {
                origin: Origin::InText(tokens),
                spec,
            }),
            Err(error) => {
                let Some((at, problem)) = first_fault(error) else {
                    return Err(Halt::NoMemory);
                };
                let place = tokens.place(alloc, at)?;
                let mut lines = Vec::new(alloc);
                let text = &tokens.source.expanded;
                push_parse_facts(&mut lines, text, tokens.tokens.as_slice(), error)?;
                let subject = Subject::Line(place);
                let facts = Facts::of(lines);
                Err(Halt::Refused(Refusal {
                    subject,
                    problem,
                    facts,
                }))
            }
        }
    }

    /// The tree of the packed specification that the bytes of the file of this name are. It is
    /// refused at line 0 of that file: the bytes aren't packed, are cut, or are damaged at a byte.
    pub fn opened(alloc: Global, name: &str, bytes: &'s [u8]) -> Result<Self, Halt>
        requires { length bytes.now ≤ size_limit }
        ensures { Gives (Unpacks name.now bytes.entry.now) tree_view result }
    {
        match unpack(alloc, bytes) {
            Ok(packed) => {
                let stored = Stored {
                    files: packed.files,
                    places: packed.places,
                };
                Ok(Tree {
                    origin: Origin::Stored(stored),
                    spec: packed.spec,
                })
            }
            Err(error) => {
                let Some(problem) = unopened(error) else {
                    return Err(Halt::NoMemory);
                };
                let refusal = Refusal::of_file(alloc, name, problem)?;
                Err(Halt::Refused(refusal))
            }
        }
    }
}
