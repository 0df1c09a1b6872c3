//! The second stage: the tokens of the text.

ghost use Rattle.std.specs.Prelude.{◌≡◌};
ghost use Rattle.sl_lex.specs.Reading.{ReadsAs};
ghost use Rattle.sl_lex.specs.Views.{views};
ghost use Rattle.sl_tool_stages.specs.Halts.{bad_place};

use crate::facts::Facts;
use crate::halt::Halt;
use crate::place::Place;
use crate::problem::Problem;
use crate::refusal::{Refusal, Subject};
use crate::source::Source;
use sl_explain::push_lex_facts;
use sl_lex::{LexError, Tok, lex};
use std::alloc::{AllocError, Global};

/// The tokens of a text, beside it. A token is named by its index, from 0.
#[derive(Debug, Drop)]
pub struct Tokens<'s, 'r> {
    /// The text.
    pub source: &'s Source<'r>,
    /// Its tokens in their order, each a slice of it.
    pub tokens: Vec<Tok<'s>>,
    pub ghost reads: { ∥ ReadsAs source.now.expanded.text.items (views tokens.items) ∥₁ },
}

/// The byte and the problem of an error of the lexer, unless memory ran out.
fn bad_place(error: LexError) -> Option<(usize, Problem)>
    ensures { result ≡ bad_place error }
{
    match error {
        LexError::BadByte(at) => Some((at, Problem::BadByte)),
        LexError::OpenString(at) => Some((at, Problem::OpenString)),
        LexError::WideInteger(at) => Some((at, Problem::WideInteger)),
        LexError::NoMemory => None,
    }
}

impl<'s, 'r> Tokens<'s, 'r> {
    ghost use Rattle.std.specs.Prelude.{◌≡◌, ◌≤◌, IfOk, length};
    ghost use Rattle.sl_tool_stages.specs.Outcomes.{Gives};
    ghost use Rattle.sl_tool_stages.specs.Places.{place_of_some, place_of_token, start_of};
    ghost use Rattle.sl_tool_stages.specs.SourceView.{source_view};
    ghost use Rattle.sl_tool_stages.specs.Stages.{Tokenizes};
    ghost use Rattle.sl_tool_stages.specs.TokensView.{tokens_view};

    /// The tokens that the text reads as. It is refused at the line of its first bad place: a byte
    /// with which no token begins, a string that isn't closed, or an integer that is too wide.
    pub fn read(alloc: Global, source: &'s Source<'r>) -> Result<Self, Halt>
        ensures { Gives (Tokenizes (source_view source.now)) tokens_view result }
    {
        match lex(alloc, source.text()) {
            Ok(tokens) => Ok(Tokens { source, tokens }),
            Err(error) => {
                let Some((at, problem)) = bad_place(error) else {
                    return Err(Halt::NoMemory);
                };
                let place = source.place(alloc, at)?;
                let mut lines = Vec::new(alloc);
                push_lex_facts(&mut lines, &source.expanded, error)?;
                let subject = Subject::Line(place);
                let facts = Facts::of(lines);
                Err(Halt::Refused(Refusal {
                    subject,
                    problem,
                    facts,
                }))
            }
        }
    }

    /// The byte at which the token of this index begins; after the last one it is the text's end.
    fn start_of(&self, index: usize) -> usize
        ensures start { result ≡ start_of (tokens_view self.now) index }
        ensures within { result ≤ length self.now.source.now.expanded.text.items }
    {
        match self.tokens.get(index) {
            Some(token) => token.from,
            None => self.source.text().len(),
        }
    }

    /// The place at which the token of this index begins; after the last one it is the text's end.
    pub fn place(&self, alloc: Global, index: usize) -> Result<Place, AllocError>
        ensures { IfOk result (λ place. place ≡ place_of_token (tokens_view self.now) index) }
    {
        let start = self.start_of(index);
        let place = self.source.place(alloc, start)?;
        Ok(place)
    }

    /// The place at which the token of this index begins, or, where none is given, the text's end.
    pub fn place_of(&self, alloc: Global, index: Option<usize>) -> Result<Place, AllocError>
        ensures { IfOk result (λ place. place ≡ place_of_some (tokens_view self.now) index) }
    {
        match index {
            Some(index) => self.place(alloc, index),
            None => self.source.place(alloc, self.source.text().len()),
        }
    }
}
