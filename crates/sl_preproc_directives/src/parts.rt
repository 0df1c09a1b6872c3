//! The parts of a directive.

ghost use Rattle.std.specs.Prelude.{◌≡◌, ◌+◌, ◌≤◌, length, IfSome};
ghost use Rattle.sl_preproc_directives.specs.Bytes.{is_blank, is_name_byte, is_inside, is_value_byte, is_on_line};
ghost use Rattle.sl_preproc_directives.specs.Parts.{Reads, run, behind, skip_blanks, begins_with_letter, name_at, byte_at, quoted_at, is_ended, mark_at};

use crate::bytes::{
    count_blanks, count_insides, count_name_bytes, count_on_lines, count_value_bytes, is_letter,
};

/// A part of a directive, and the bytes behind it.
pub type Part<'a> = (&'a [u8], &'a [u8]);

#[tactic(auto, using(crate::proofs::RunLemmas::run_within))]
fn split_name(text: &[u8]) -> Part<'_>
    ensures front { result.0.now ≡ run is_name_byte text.now }
    ensures back { result.1.now ≡ behind is_name_byte text.now }
    ensures within { length result.1.now ≤ length text.now }
{
    text.split_at(count_name_bytes(text))
}

#[tactic(auto, using(crate::proofs::RunLemmas::run_within))]
fn split_inside(text: &[u8]) -> Part<'_>
    ensures front { result.0.now ≡ run is_inside text.now }
    ensures back { result.1.now ≡ behind is_inside text.now }
    ensures within { length result.1.now ≤ length text.now }
{
    text.split_at(count_insides(text))
}

#[tactic(auto, using(crate::proofs::RunLemmas::run_within))]
/// The value bytes at the front, which may be none, and what stands behind them.
pub fn split_value(text: &[u8]) -> Part<'_>
    ensures front { result.0.now ≡ run is_value_byte text.now }
    ensures back { result.1.now ≡ behind is_value_byte text.now }
{
    text.split_at(count_value_bytes(text))
}

#[tactic(auto, using(crate::proofs::RunLemmas::run_within))]
/// The bytes up to a line feed or the end, and what stands behind them.
pub fn split_line(text: &[u8]) -> Part<'_>
    ensures front { result.0.now ≡ run is_on_line text.now }
    ensures back { result.1.now ≡ behind is_on_line text.now }
{
    text.split_at(count_on_lines(text))
}

#[tactic(auto, using(crate::proofs::RunLemmas::run_within))]
pub fn skip_blanks(text: &[u8]) -> &[u8]
    ensures skipped { result.now ≡ skip_blanks text.now }
    ensures within { length result.now ≤ length text.now }
{
    text.split_at(count_blanks(text)).1
}

fn begins_with_letter(text: &[u8]) -> bool
    ensures { result ≡ begins_with_letter text.now }
{
    match text {
        [] => false,
        [first, ..] => is_letter(*first),
    }
}

/// The name at the front.
#[tactic(auto, unfolding(crate::specs::Parts::name_at))]
pub fn name_at(text: &[u8]) -> Option<Part<'_>>
    ensures read { Reads (λ p. (p.0.now, p.1.now)) result (name_at text.now) }
    ensures within { IfSome result (λ p. length p.1.now ≤ length text.now) }
{
    if begins_with_letter(text) {
        Some(split_name(text))
    } else {
        None
    }
}

/// The quoted text at the front, without its quotes.
#[tactic(auto, unfolding(crate::specs::Parts::quoted_at))]
pub fn quoted_at(text: &[u8]) -> Option<Part<'_>>
    ensures read { Reads (λ p. (p.0.now, p.1.now)) result (quoted_at text.now) }
    ensures within { IfSome result (λ p. length p.1.now ≤ length text.now) }
{
    let [b'"', inside @ ..] = text else {
        return None;
    };
    let (text, rest) = split_inside(inside);
    match rest {
        [] => None,
        [_, rest @ ..] => Some((text, rest)),
    }
}

/// Whether nothing but blanks and a comment is left.
#[tactic(auto, unfolding(crate::specs::Parts::is_ended))]
pub fn is_ended(text: &[u8]) -> bool
    ensures { result ≡ is_ended text.now }
{
    match skip_blanks(text) {
        [] => true,
        [first, ..] => *first == b'#',
    }
}

/// What stands behind the blanks and the mark.
#[tactic(auto, unfolding(crate::specs::Parts::mark_at))]
pub fn mark_at<'a>(mark: &str, text: &'a [u8]) -> Option<&'a [u8]>
    ensures read { Reads (λ rest. rest.now) result (mark_at mark.now text.now) }
    ensures within { IfSome result (λ rest. length rest.now + length mark.now ≤ length text.now) }
{
    skip_blanks(text).strip_prefix(mark.as_bytes())
}

/// What stands behind the byte.
pub fn byte_at(byte: u8, text: &[u8]) -> Option<&[u8]>
    ensures { Reads (λ rest. rest.now) result (byte_at byte text.now) }
{
    match text {
        [first, rest @ ..] if *first == byte => Some(rest),
        _ => None,
    }
}
