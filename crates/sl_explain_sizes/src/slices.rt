//! Parts of a row of tokens.

ghost use Rattle.std.specs.Prelude.{◌≡◌, slice_get, take};
ghost use Rattle.sl_explain_sizes.specs.Slices as spec;
ghost use Rattle.sl_lex.specs.Views.{views};

use sl_explain_heads::from;
use sl_explain_names::{is, steps_to};
use sl_lex::Tok;

fn opens(text: &[u8]) -> bool
    ensures { result ≡ spec.opens text.now }
{
    is(text, b"(") || is(text, b"[")
}

fn closes(text: &[u8]) -> bool
    ensures { result ≡ spec.closes text.now }
{
    is(text, b")") || is(text, b"]")
}

/// How many of the tokens are before the first one with these bytes that is in no bracket.
pub fn outside(stop: &[u8], tokens: &[Tok<'_>]) -> usize
    ensures { result ≡ spec.outside stop.now (views tokens.now) }
{
    let mut level = 0_usize;
    'tokens: for at in 0..tokens.len() {
        let text = tokens[at].text;
        if level == 0 && is(text, stop) {
            return at;
        }
        if opens(text) {
            level += 1;
        } else if closes(text) {
            level = level.saturating_sub(1);
        }
    }
    tokens.len()
}

/// The first tokens, at most so many.
pub fn front<'t, 'a>(tokens: &'t [Tok<'a>], count: usize) -> &'t [Tok<'a>]
    ensures { views result.now ≡ take count (views tokens.now) }
{
    let (front, _) = tokens.split_at(count.min(tokens.len()));
    front
}

/// What comes after so many tokens and one more.
pub fn beyond<'t, 'a>(tokens: &'t [Tok<'a>], count: usize) -> &'t [Tok<'a>]
    ensures { views result.now ≡ spec.beyond count (views tokens.now) }
{
    from(from(tokens, count), 1)
}

/// The tokens before the bracket that closes, where they begin in it.
pub fn in_bracket<'t, 'a>(tokens: &'t [Tok<'a>]) -> &'t [Tok<'a>]
    ensures { views result.now ≡ spec.in_bracket (views tokens.now) }
{
    front(tokens, outside(b")", tokens))
}

/// Those after it.
pub fn after_bracket<'t, 'a>(tokens: &'t [Tok<'a>]) -> &'t [Tok<'a>]
    ensures { views result.now ≡ spec.after_bracket (views tokens.now) }
{
    beyond(tokens, outside(b")", tokens))
}

/// The tokens before the first one with these bytes.
pub fn up_to<'t, 'a>(tokens: &'t [Tok<'a>], stop: &[u8]) -> &'t [Tok<'a>]
    ensures { views result.now ≡ spec.up_to stop.now (views tokens.now) }
{
    front(tokens, steps_to(stop, tokens))
}

// ---- bytes

/// A part of a text: its first byte, and how many it has.
#[derive(Clone, Copy)]
pub struct Extent {
    pub byte: usize,
    pub width: usize,
}

fn first_byte(tokens: &[Tok<'_>]) -> usize
    ensures { result ≡ spec.first_byte (slice_get (views tokens.now) 0) }
{
    match tokens.get(0) {
        Some(token) => token.from,
        None => 0,
    }
}

/// The byte after the token of this index.
fn end_byte(tokens: &[Tok<'_>], index: usize) -> usize
    ensures { result ≡ spec.end_byte (slice_get (views tokens.now) index) }
{
    match tokens.get(index) {
        Some(token) => token.from.saturating_add(token.text.len()),
        None => 0,
    }
}

/// From the first byte of the first token to the last one of the last.
pub fn extent_of(tokens: &[Tok<'_>]) -> Extent
    ensures { result ≡ spec.extent_of (views tokens.now) }
{
    let byte = first_byte(tokens);
    let end = end_byte(tokens, tokens.len().saturating_sub(1));
    Extent {
        byte,
        width: end.saturating_sub(byte),
    }
}
