//! The lexer.

ghost use Rattle.std.specs.Prelude.{◌≡◌, ◌+◌, ◌<◌, ◌^◌, IfOk, IfErr, length, ℕ};
ghost use Rattle.sl_lex.specs.Errors.{Tells};
ghost use Rattle.sl_lex.specs.Faults.{is_at_line_end};
ghost use Rattle.sl_lex.specs.Found.{Blames, Steps, BlamesWhereNothing};
ghost use Rattle.sl_lex.specs.Reading.{ReadsAs};
ghost use Rattle.sl_lex.specs.Views.{views};

use crate::bytes::count_text_bytes;
use crate::lexemes::{Found, lexeme};
use crate::mode::{Mode, next_mode};
use crate::{LexError, Tok};
use std::alloc::Global;

/// A piece of a text that was read: its token, unless it is dropped, the mode that it leads to, and what
/// comes after it.
#[derive(Clone, Copy)]
struct Step<'a> {
    token: Option<Tok<'a>>,
    mode: Mode,
    rest: &'a [u8],
}

fn is_at_line_end(text: &[u8]) -> bool
    ensures { result ≡ is_at_line_end text.now }
{
    matches!(text, [] | [b'\n', ..])
}

/// Why the text does not go on here, where no lexeme stands at its front.
fn fault(from: usize, text: &[u8]) -> LexError
    requires some { 0 < length text.now }
    requires fits { from + length text.now < 2 ^ 64 }
    ensures { BlamesWhereNothing from text.now result }
{
    if text[0] != b'"' {
        return LexError::BadByte(from);
    }
    let (_, inside) = text.split_at(1);
    let count = count_text_bytes(inside);
    let (_, rest) = inside.split_at(count);
    if is_at_line_end(rest) {
        LexError::OpenString(from)
    } else {
        LexError::BadByte(from + 1 + count)
    }
}

/// The piece at the front of a text, which is at this place of the whole text.
fn piece_at<'a>(mode: Mode, from: usize, text: &'a [u8]) -> Result<Step<'a>, LexError>
    requires some { 0 < length text.now }
    requires fits { from + length text.now < 2 ^ 64 }
    ensures found { IfOk result (λ s. Steps mode from text.now s) }
    ensures fault { IfErr result (λ e. Blames mode from text.now e) }
{
    match lexeme(mode, text) {
        Found::Gap(count) => {
            let (_, rest) = text.split_at(count);
            Ok(Step {
                token: None,
                mode,
                rest,
            })
        }
        Found::Token(kind, count) => {
            let (bytes, rest) = text.split_at(count);
            let token = Tok {
                kind,
                text: bytes,
                from,
            };
            Ok(Step {
                token: Some(token),
                mode: next_mode(mode, bytes),
                rest,
            })
        }
        Found::TooWide => Err(LexError::WideInteger(from)),
        Found::Nothing => Err(fault(from, text)),
    }
}

/// The tokens of a specification's text, in its order. An error names the first place where the text can't
/// go on, or says that the list of tokens could not grow.
pub fn lex<'a>(alloc: Global, text: &'a [u8]) -> Result<Vec<Tok<'a>>, LexError>
    ensures tokens { IfOk result (λ toks. ReadsAs text.now (views toks.items)) }
    ensures fault { IfErr result (λ e. Tells text.now e) }
{
    let mut toks = Vec::new(alloc);
    let mut mode = Mode::Top;
    let mut from = 0;
    let mut rest = text;
    'pieces: while !rest.is_empty() {
        let piece = piece_at(mode, from, rest)?;
        if let Some(tok) = piece.token {
            if toks.push(tok).is_err() {
                return Err(LexError::NoMemory);
            }
        }
        from += rest.len() - piece.rest.len();
        mode = piece.mode;
        rest = piece.rest;
    }
    Ok(toks)
}
