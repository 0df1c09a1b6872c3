//! Marks, and the longest one at the front of a text.

ghost use Rattle.std.specs.Prelude.{◌≡◌, ◌<◌, if◌then◌else◌, length, map, nat_eq};
ghost use Rattle.std.specs.List.{starts_with};
ghost use Rattle.sl_lex.specs.Bytes.{is_among};
ghost use Rattle.sl_lex.specs.Found.{IsLongestMark};
ghost use Rattle.sl_lex.specs.Marks.{common_marks, mark_bytes, marks_of, section_marks_of};

use crate::bytes::is_letter;
use crate::mode::Mode;

/// The marks of more than one byte that every mode but `Display` has.
static LONG_MARKS: [&[u8]; 13] = [
    b"...", b"$and", b"$or", b"$xor", b"<<", b">>", b"<=", b">=", b"==", b"!=", b"&&", b"||", b"^^",
];

/// The signed and the floating operators, which sections have besides.
static SECTION_MARKS: [&[u8]; 17] = [
    b"s>>", b"s<=", b"s>=", b"s<", b"s>", b"s/", b"s%", b"f+", b"f-", b"f*", b"f/", b"f==", b"f!=",
    b"f<", b"f<=", b"f>", b"f>=",
];

/// The mark's length where it stands at the front; else 0.
fn length_at_front(mark: &[u8], text: &[u8]) -> usize
    ensures { result ≡ (if starts_with nat_eq text.now mark.now then length mark.now else 0) }
{
    if text.starts_with(mark) {
        mark.len()
    } else {
        0
    }
}

/// The length of the longest of these marks at the front; 0 where none stands there.
fn longest_of(marks: &[&[u8]], text: &[u8]) -> usize
    ensures { IsLongestMark (map (λ m. m.now) marks.now) text.now result }
{
    let mut longest = 0;
    for mark in marks {
        longest = length_at_front(mark, text).max(longest);
    }
    longest
}

fn is_mark_byte(byte: u8) -> bool
    ensures { result ≡ is_among mark_bytes byte }
{
    matches!(
        byte,
        b'(' | b')'
            | b'['
            | b']'
            | b'{'
            | b'}'
            | b','
            | b';'
            | b':'
            | b'='
            | b'+'
            | b'-'
            | b'*'
            | b'/'
            | b'%'
            | b'&'
            | b'|'
            | b'^'
            | b'~'
            | b'!'
            | b'<'
            | b'>'
    )
}

/// The length of the longest mark at the front that all modes but `Display` have; 0 where none stands there.
fn count_common_mark(text: &[u8]) -> usize
    requires { 0 < length text.now }
    ensures { IsLongestMark common_marks text.now result }
{
    let long = longest_of(&LONG_MARKS, text);
    if long > 0 {
        long
    } else if is_mark_byte(text[0]) {
        1
    } else {
        0
    }
}

/// The length of the longest mark at the front that begins with a letter; 0 where none stands there.
fn count_lettered_mark(mode: Mode, text: &[u8]) -> usize
    requires { 0 < length text.now }
    ensures { IsLongestMark (section_marks_of mode) text.now result }
{
    match mode {
        Mode::Body if matches!(text[0], b's' | b'f') => longest_of(&SECTION_MARKS, text),
        _ => 0,
    }
}

/// The length of the longest mark of the mode at the front; 0 where none stands there.
pub fn count_mark(mode: Mode, text: &[u8]) -> usize
    requires outside { mode ≡ Mode.Display → ⊥ }
    requires some { 0 < length text.now }
    ensures { IsLongestMark (marks_of mode) text.now result }
{
    if is_letter(text[0]) {
        count_lettered_mark(mode, text)
    } else {
        count_common_mark(text)
    }
}
