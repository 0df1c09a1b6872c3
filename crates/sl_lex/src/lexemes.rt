//! Which lexeme stands at the front of a text.

ghost use Rattle.std.specs.Prelude.{◌≡◌, ◌<◌, ◌≤◌, ℕ, length, slice_index};
ghost use Rattle.sl_lex.specs.Bytes.{is_quote, is_digit};
ghost use Rattle.sl_lex.specs.Found.{class_of, word_len, IsLongestWord, Finds, FindsOutside};
ghost use Rattle.sl_lex.specs.Lexemes.{BeginsWith};
ghost use Rattle.sl_lex.specs.declared.mode.Mode as ModeOf;
ghost use Rattle.sl_lex.specs.declared.mode.Mode.TheVariants.{Display};

use crate::TokKind;
use crate::bytes::{
    begins_word, count_blanks, count_comment_bytes, count_text_bytes, count_word_bytes, is_blank,
    is_char, is_digit, is_word_byte,
};
use crate::marks::count_mark;
use crate::mode::Mode;
use crate::numbers::{digits_of, number};

/// What stands at the front of a text, with its length in bytes.
#[derive(Clone, Copy)]
pub enum Found {
    /// Blanks or a comment, which are dropped.
    Gap(usize),
    Token(TokKind, usize),
    /// An integer above 2^64 - 1.
    TooWide,
    Nothing,
}

/// How many bytes at the front go on a word, up to three dots.
fn count_undotted(text: &[u8]) -> usize
    ensures { result ≡ word_len text.now }
{
    for (i, byte) in text.iter().enumerate() {
        if !is_word_byte(*byte) || text[i..].starts_with(b"...") {
            return i;
        }
    }
    text.len()
}

/// A word's length at the front, up to three dots; 0 where no word stands there.
fn count_word(text: &[u8]) -> usize
    requires { 0 < length text.now }
    ensures { IsLongestWord text.now result }
{
    if begins_word(text[0]) {
        count_undotted(text)
    } else {
        0
    }
}

/// The text between quotes at the front.
fn quoted(text: &[u8]) -> Found
    requires { BeginsWith is_quote text.now }
    ensures { (mode : ModeOf.Mode) → Finds mode text.now result }
{
    let (_, inside) = text.split_at(1);
    let count = count_text_bytes(inside);
    let (_, rest) = inside.split_at(count);
    if rest.starts_with(b"\"") {
        Found::Token(TokKind::Text, count + 2)
    } else {
        Found::Nothing
    }
}

/// The integer at the front.
fn integer(text: &[u8]) -> Found
    requires { BeginsWith is_digit text.now }
    ensures { FindsOutside text.now result }
{
    let (base, mark, count) = digits_of(text);
    match number(base, &text[mark..mark + count]) {
        Some(value) => Found::Token(TokKind::Integer(value), mark + count),
        None => Found::TooWide,
    }
}

/// The word or the mark at the front of a text that begins with neither a blank, a digit, a quote nor `#`.
fn word_or_mark(mode: Mode, text: &[u8]) -> Found
    requires outside { mode ≡ Mode.Display → ⊥ }
    requires some { 0 < length text.now }
    requires other { class_of (slice_index text.now 0) ≡ 0 }
    ensures { Finds mode text.now result }
{
    let word = count_word(text);
    let mark = count_mark(mode, text);
    if word < mark {
        Found::Token(TokKind::Mark, mark)
    } else if word > 0 {
        Found::Token(TokKind::Word, word)
    } else {
        Found::Nothing
    }
}

/// What stands at the front outside displays.
fn in_code(mode: Mode, text: &[u8]) -> Found
    requires outside { mode ≡ Mode.Display → ⊥ }
    requires some { 0 < length text.now }
    ensures { Finds mode text.now result }
{
    match text[0] {
        b'"' => quoted(text),
        b'#' => Found::Gap(count_comment_bytes(text)),
        first if is_blank(first) => Found::Gap(count_blanks(text)),
        first if is_digit(first) => integer(text),
        _ => word_or_mark(mode, text),
    }
}

/// What stands at the front in a display.
fn in_display(text: &[u8]) -> Found
    requires { 0 < length text.now }
    ensures { Finds Display text.now result }
{
    match text[0] {
        b'"' => quoted(text),
        b'^' => Found::Token(TokKind::Caret, 1),
        first if is_blank(first) => Found::Token(TokKind::Blank, count_blanks(text)),
        first if begins_word(first) => Found::Token(TokKind::Word, count_word_bytes(text)),
        first if is_char(first) => Found::Token(TokKind::Char, 1),
        _ => Found::Nothing,
    }
}

/// What stands at the front of a text in a mode.
pub fn lexeme(mode: Mode, text: &[u8]) -> Found
    requires { 0 < length text.now }
    ensures { Finds mode text.now result }
{
    match mode {
        Mode::Display => in_display(text),
        _ => in_code(mode, text),
    }
}
