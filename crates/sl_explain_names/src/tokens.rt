//! Kinds of tokens, and the bytes round a token.

ghost use Rattle.std.specs.Prelude.{◌≡◌, slice_get};
ghost use Rattle.std.specs.Str.{bytes_eq};
ghost use Rattle.sl_explain_names.specs.TokenKinds.{has_after, has_before, has_here, has_kind, is_caret};
ghost use Rattle.sl_explain_names.specs.TokenKinds.{is_integer, is_text, is_word, is_word_at, number_after};
ghost use Rattle.sl_explain_names.specs.TokenKinds.{number_in, text_after, value_of};
ghost use Rattle.sl_lex.specs.Views.{views};

use sl_explain_heads::{from, text_at, text_before};
use sl_lex::{Tok, TokKind};

/// Whether the bytes are those of the word.
pub fn is(text: &[u8], word: &[u8]) -> bool
    ensures { result ≡ bytes_eq text.now word.now }
{
    text == word
}

fn is_word(kind: TokKind) -> bool
    ensures { result ≡ is_word kind }
{
    matches!(kind, TokKind::Word)
}

fn is_integer(kind: TokKind) -> bool
    ensures { result ≡ is_integer kind }
{
    matches!(kind, TokKind::Integer(_))
}

fn is_text(kind: TokKind) -> bool
    ensures { result ≡ is_text kind }
{
    matches!(kind, TokKind::Text)
}

pub fn is_caret(kind: TokKind) -> bool
    ensures { result ≡ is_caret kind }
{
    matches!(kind, TokKind::Caret)
}

/// The number that a token of this kind spells, or 0.
fn value_of(kind: TokKind) -> u64
    ensures { result ≡ value_of kind }
{
    match kind {
        TokKind::Integer(value) => value,
        _ => 0,
    }
}

/// Whether the token of this index is a word.
pub fn is_word_at(tokens: &[Tok<'_>], index: usize) -> bool
    ensures { result ≡ is_word_at (views tokens.now) index }
{
    match tokens.get(index) {
        Some(token) => is_word(token.kind),
        None => false,
    }
}

/// Whether the token of this index is an integer.
pub fn is_integer_at(tokens: &[Tok<'_>], index: usize) -> bool
    ensures { result ≡ has_kind is_integer (slice_get (views tokens.now) index) }
{
    match tokens.get(index) {
        Some(token) => is_integer(token.kind),
        None => false,
    }
}

/// Whether it is a text in quotes.
pub fn is_text_at(tokens: &[Tok<'_>], index: usize) -> bool
    ensures { result ≡ has_kind is_text (slice_get (views tokens.now) index) }
{
    match tokens.get(index) {
        Some(token) => is_text(token.kind),
        None => false,
    }
}

/// The number that the token spells which stands so many after the one of this index, or 0.
pub fn number_after(tokens: &[Tok<'_>], index: usize, ahead: usize) -> u64
    ensures { result ≡ number_after (views tokens.now) index ahead }
{
    match from(tokens, index).get(ahead) {
        Some(token) => value_of(token.kind),
        None => 0,
    }
}

/// The bytes of the token that stands so many after the one of this index, or none.
pub fn text_after<'a>(tokens: &[Tok<'a>], index: usize, ahead: usize) -> &'a [u8]
    ensures { result.now ≡ text_after (views tokens.now) index ahead }
{
    text_at(from(tokens, index), ahead)
}

/// Whether that token has these bytes.
pub fn has_after(tokens: &[Tok<'_>], index: usize, ahead: usize, text: &[u8]) -> bool
    ensures { result ≡ has_after (views tokens.now) index ahead text.now }
{
    is(text_after(tokens, index, ahead), text)
}

/// Whether the token of this index has these bytes.
pub fn has_here(tokens: &[Tok<'_>], index: usize, text: &[u8]) -> bool
    ensures { result ≡ has_here (views tokens.now) index text.now }
{
    is(text_at(tokens, index), text)
}

/// Whether the token that stands so many before the one of this index has these bytes.
pub fn has_before(tokens: &[Tok<'_>], index: usize, back: usize, text: &[u8]) -> bool
    ensures { result ≡ has_before (views tokens.now) index back text.now }
{
    is(text_before(tokens, index, back), text)
}
