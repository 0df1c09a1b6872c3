//! The lines on which tokens are, found in one pass over the text where the tokens are in its order.

ghost use Rattle.std.specs.Prelude.{◌≡◌, ◌==◌, ◌+◌, ◌-◌, ◌≤◌, IfOk, count_by, length, map, min, slice_get};
ghost use Rattle.sl_ast.specs.Validity.{Each};
ghost use Rattle.sl_lex.specs.Views.{views};
ghost use Rattle.sl_preproc.specs.Expanded.{line_index, or_no_place, seen};
ghost use Rattle.sl_store_text.specs.Lines.{HasLine};
ghost use Rattle.sl_store_text.specs.PackedForm.{place_of_first, start_of};

use sl_lex::Tok;
use sl_preproc::{Expanded, Place};
use std::alloc::{AllocError, Global};

/// The byte at which the token of this index begins; after the last one it is `end`.
fn start_of(tokens: &[Tok<'_>], index: usize, end: usize) -> usize
    ensures { result ≡ start_of (views tokens.now) index end }
{
    match tokens.get(index) {
        Some(token) => token.from,
        None => end,
    }
}

/// How many line feeds a text has.
fn feeds(text: &[u8]) -> usize
    ensures { result ≡ count_by (λ b. b == 10) text.now }
{
    text.iter().filter(|b| **b == b'\n').count()
}

/// How many line feeds are in a text from one byte up to another.
fn feeds_between(text: &[u8], from: usize, to: usize) -> usize
    requires { from ≤ to }
    ensures { line_index text.now from + result ≡ line_index text.now to }
{
    let (front, _) = text.split_at(to.min(text.len()));
    let (_, between) = front.split_at(from.min(front.len()));
    feeds(between)
}

/// The line of a byte, counted from 0, where the line of the byte `from` is known.
fn line_of(text: &[u8], from: usize, line: usize, byte: usize) -> usize
    requires { line ≡ line_index text.now from }
    ensures { result ≡ line_index text.now byte }
{
    if from <= byte {
        line + feeds_between(text, from, byte)
    } else {
        feeds_between(text, 0, byte)
    }
}

/// A line of a file, each told by its number.
fn file_line(file: u32, line: u32) -> Place
    ensures place { result ≡ record { file = file; line = line } }
    ensures line { HasLine result }
{
    Place { file, line }
}

/// The place of a line; of a line after the last one it is that of the last one.
fn place_of_line(lines: &[Place], line: usize) -> Place
    ensures place { result ≡ or_no_place (slice_get lines.now (min line (length lines.now - 1))) }
    ensures line { HasLine result }
{
    let last = lines.len().saturating_sub(1);
    match lines.get(line.min(last)) {
        Some(place) => file_line(place.file, place.line),
        None => file_line(0, 0),
    }
}

/// The places of these tokens, told by their indexes.
pub fn places_of(
    alloc: Global,
    text: &Expanded,
    tokens: &[Tok<'_>],
    firsts: &[usize],
) -> Result<Vec<Place>, AllocError>
    ensures are { IfOk result (λ places. places.items
        ≡ map (place_of_first (seen text.now) (views tokens.now)) firsts.now) }
    ensures lines { IfOk result (λ places. Each HasLine places.items) }
{
    let bytes = text.text.as_slice();
    let lines = text.lines.as_slice();
    let mut places = Vec::with_capacity(alloc, firsts.len())?;
    let mut from = 0;
    let mut line = 0;
    'firsts: for first in firsts {
        let start = start_of(tokens, *first, bytes.len());
        line = line_of(bytes, from, line, start);
        from = start;
        places.push(place_of_line(lines, line))?;
    }
    Ok(places)
}
