//! Tokens as words, and the modes and blocks in which they stand.

ghost use Rattle.std.specs.Prelude.{◌≡◌, ◌++◌, ◌≤◌, IfOk, OnOk, None, length, option_map, slice_get};
ghost use Rattle.sl_explain_heads.specs.Modes.{mode_view};
ghost use Rattle.sl_explain_heads.specs.Words.{begins_item, blocks_by, blocks_in, blocks_round, bytes_of, ends_item, gap, is_blank};
ghost use Rattle.sl_explain_heads.specs.Words.{joined, mode_at, text_at, text_before, token_words};
ghost use Rattle.sl_lex.specs.Modes.{next_mode};
ghost use Rattle.sl_lex.specs.Views.{view, views};

use crate::heads::is;
use sl_explain_lines::push_up_to;
use sl_lex::{Tok, TokKind};
use std::alloc::{AllocError, Global};

/// Appends a token by itself.
pub fn push_token(out: &mut Vec<u8>, token: &Tok<'_>) -> Result<(), AllocError>
    ensures { OnOk result (out.new.items ≡ out.old.items ++ token_words (view token.now)) }
{
    push_up_to(out, 40, token.text)
}

fn is_blank(kind: TokKind) -> bool
    ensures { result ≡ is_blank kind }
{
    matches!(kind, TokKind::Blank)
}

/// Appends one blank where something stands between a token and the one before it.
fn push_gap(out: &mut Vec<u8>, last: Option<Tok<'_>>, token: &Tok<'_>) -> Result<(), AllocError>
    ensures { OnOk result (out.new.items
        ≡ out.old.items ++ gap (option_map view last.entry) (view token.now)) }
{
    match last {
        Some(last) => {
            if last.text.len() < token.from.saturating_sub(last.from) {
                out.extend_from_slice(b" ")
            } else {
                Ok(())
            }
        }
        None => Ok(()),
    }
}

/// The tokens as they stand, with one blank wherever something stands between two, and none at the
/// ends.
pub fn joined(alloc: Global, tokens: &[Tok<'_>]) -> Result<Vec<u8>, AllocError>
    ensures { IfOk result (λ words. words.items ≡ joined (views tokens.now)) }
{
    let mut out = Vec::new(alloc);
    let mut last = None;
    'tokens: for token in tokens {
        if !is_blank(token.kind) {
            push_gap(&mut out, last, token)?;
            out.extend_from_slice(token.text)?;
            last = Some(*token);
        }
    }
    Ok(out)
}

/// A part of the text that has lexemes of its own, as the lexer tells them apart.
#[derive(Clone, Copy, Debug, PartialEq, Eq)]
pub enum Mode {
    Top,
    Head,
    Plain,
    Body,
    Display,
    Pattern,
}

/// The mode in which a text goes on after a token with these bytes.
pub fn next_mode(mode: Mode, text: &[u8]) -> Mode
    ensures { mode_view result ≡ next_mode (mode_view mode) text.now }
{
    match (mode, text) {
        (Mode::Top, b"define" | b"attach") => Mode::Plain,
        (Mode::Top, b"macro") | (Mode::Pattern, b"{") => Mode::Body,
        (Mode::Top, b"with") => Mode::Head,
        (Mode::Top, b":") => Mode::Display,
        (Mode::Head, b"{")
        | (Mode::Plain, b";")
        | (Mode::Body, b"}")
        | (Mode::Pattern, b"unimpl") => Mode::Top,
        (Mode::Display, b"is") => Mode::Pattern,
        _ => mode,
    }
}

/// The tokens before the one of this index.
fn front<'a, 'b>(tokens: &'b [Tok<'a>], index: usize) -> &'b [Tok<'a>]
    ensures { views result.now ≡ Rattle.std.specs.Prelude.take index (views tokens.now) }
{
    let (front, _) = tokens.split_at(index.min(tokens.len()));
    front
}

/// The mode in which the token of this index stands.
pub fn mode_at(tokens: &[Tok<'_>], index: usize) -> Mode
    ensures { mode_view result ≡ mode_at (views tokens.now) index }
{
    let front = front(tokens, index);
    let mut mode = Mode::Top;
    'tokens: for token in front {
        mode = next_mode(mode, token.text);
    }
    mode
}

/// Opens or closes a block at a token between items.
fn step_blocks(open: &mut Vec<usize>, index: usize, text: &[u8]) -> Result<(), AllocError>
    ensures { OnOk result (open.new.items ≡ blocks_by open.old.items index text.now) }
{
    match text {
        b"with" => open.push(index)?,
        b"}" => {
            open.pop();
        }
        _ => {}
    }
    Ok(())
}

/// Opens or closes a block at a token that stands in this mode.
pub fn step_in(
    mode: Mode,
    open: &mut Vec<usize>,
    index: usize,
    text: &[u8],
) -> Result<(), AllocError>
    ensures { OnOk result (open.new.items
        ≡ blocks_in (mode_view mode) open.old.items index text.now) }
{
    match mode {
        Mode::Top => step_blocks(open, index, text),
        _ => Ok(()),
    }
}

/// The blocks round the token of this index, each by the index of its first token, the outermost
/// one first.
pub fn blocks_round(
    alloc: Global,
    tokens: &[Tok<'_>],
    index: usize,
) -> Result<Vec<usize>, AllocError>
    ensures { IfOk result (λ blocks. blocks.items ≡ blocks_round (views tokens.now) index) }
{
    let front = front(tokens, index);
    let mut open = Vec::new(alloc);
    let mut mode = Mode::Top;
    'tokens: for at in 0..front.len() {
        let text = front[at].text;
        step_in(mode, &mut open, at, text)?;
        mode = next_mode(mode, text);
    }
    Ok(open)
}

/// Whether a token with these bytes is the last one of an item, or of the head of a block.
fn ends_item(text: &[u8]) -> bool
    ensures { result ≡ ends_item text.now }
{
    is(text, b";") || is(text, b"}") || is(text, b"{") || is(text, b"unimpl")
}

/// Whether an item, a block or the end of one begins at the token of this index, which is in this
/// mode.
pub fn begins_item(mode: Mode, tokens: &[Tok<'_>], index: usize) -> bool
    ensures { result ≡ begins_item (mode_view mode) (views tokens.now) index }
{
    match mode {
        Mode::Top => ends_item(text_before(tokens, index, 1)),
        _ => false,
    }
}

/// The bytes of the token of this index, or none.
pub fn text_at<'a>(tokens: &[Tok<'a>], index: usize) -> &'a [u8]
    ensures { result.now ≡ text_at (views tokens.now) index }
{
    match tokens.get(index) {
        Some(token) => token.text,
        None => b"",
    }
}

/// The bytes of the token that stands so many before the one of this index, or none.
pub fn text_before<'a>(tokens: &[Tok<'a>], index: usize, back: usize) -> &'a [u8]
    ensures { result.now ≡ text_before (views tokens.now) index back }
{
    if index < back {
        b""
    } else {
        text_at(tokens, index - back)
    }
}
