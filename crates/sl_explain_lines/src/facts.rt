//! Lines with their labels.

ghost use Rattle.std.specs.Prelude.{◌≡◌, ◌+◌, ◌++◌, ◌<◌, ◌≤◌, ◌^◌, OnOk, codes, length, map};
ghost use Rattle.sl_explain_lines.specs.Excerpts.{carets, excerpt};
ghost use Rattle.sl_explain_lines.specs.FactLines.{column_words, fact_line, line_words, shown_in_name};
ghost use Rattle.sl_explain_lines.specs.FactLines.{spot_in, spot_lines};

use crate::excerpt::{push_carets, push_excerpt};
use crate::line::{Line, line_at};
use itoa::Buffer;
use std::alloc::AllocError;

/// Appends a line with this label, which takes eight columns, and these words.
pub fn push_fact(out: &mut Vec<u8>, label: &[u8], words: &[u8]) -> Result<(), AllocError>
    ensures { OnOk result (out.new.items ≡ out.old.items ++ fact_line label.now words.now) }
{
    out.extend_from_slice(label)?;
    out.extend_from_slice(words)?;
    out.extend_from_slice(b"\n")
}

/// A byte of a file's name as it is shown.
fn shown_in_name(byte: u8) -> u8
    ensures { result ≡ shown_in_name byte }
{
    match byte {
        0..=0x1f => b'?',
        0x7f => b'?',
        _ => byte,
    }
}

/// Appends the name of a file.
fn push_name(out: &mut Vec<u8>, name: &[u8]) -> Result<(), AllocError>
    ensures { OnOk result (out.new.items ≡ out.old.items ++ map shown_in_name name.now) }
{
    'bytes: for byte in name {
        out.push(shown_in_name(*byte))?;
    }
    Ok(())
}

/// Appends a line of a file.
pub fn push_line(out: &mut Vec<u8>, file: &[u8], line: u64) -> Result<(), AllocError>
    ensures { OnOk result (out.new.items ≡ out.old.items ++ line_words file.now line) }
{
    let mut buffer = Buffer::new();
    push_name(out, file)?;
    out.extend_from_slice(b":")?;
    out.extend_from_slice(buffer.format(line).as_bytes())
}

/// Appends a column of a line of a file.
fn push_column(out: &mut Vec<u8>, file: &[u8], line: u64, column: u64) -> Result<(), AllocError>
    ensures { OnOk result (out.new.items ≡ out.old.items ++ column_words file.now line column) }
{
    let mut buffer = Buffer::new();
    push_line(out, file, line)?;
    out.extend_from_slice(b":")?;
    out.extend_from_slice(buffer.format(column).as_bytes())
}

/// Appends the line with the place of a token, before which so many bytes of its line stand.
fn push_at(out: &mut Vec<u8>, file: &[u8], line: u64, before: usize) -> Result<(), AllocError>
    requires { before < 2 ^ 63 }
    ensures { OnOk result (out.new.items ≡ out.old.items
        ++ fact_line (codes "  at    ") (column_words file.now line (before + 1))) }
{
    out.extend_from_slice(b"  at    ")?;
    push_column(out, file, line, before as u64 + 1)?;
    out.extend_from_slice(b"\n")
}

/// Appends what is shown of a line, for a token at this byte.
fn push_text(out: &mut Vec<u8>, line: &[u8], before: usize) -> Result<(), AllocError>
    requires { before ≤ length line.now }
    ensures { OnOk result (out.new.items ≡ out.old.items
        ++ fact_line (codes "  text  ") (excerpt line.now before)) }
{
    out.extend_from_slice(b"  text  ")?;
    push_excerpt(out, line, before)?;
    out.extend_from_slice(b"\n")
}

/// Appends carets under a token of so many bytes.
fn push_under(
    out: &mut Vec<u8>,
    bytes: usize,
    before: usize,
    width: usize,
) -> Result<(), AllocError>
    requires { before ≤ bytes }
    ensures { OnOk result (out.new.items ≡ out.old.items
        ++ fact_line (codes "        ") (carets bytes before width)) }
{
    out.extend_from_slice(b"        ")?;
    push_carets(out, bytes, before, width)?;
    out.extend_from_slice(b"\n")
}

/// Appends the lines of a token of so many bytes in a line of a file.
#[tactic(auto, unfolding(crate::specs::FactLines::spot_in))]
fn push_spot_in(
    out: &mut Vec<u8>,
    file: &[u8],
    number: u64,
    line: Line<'_>,
    width: usize,
) -> Result<(), AllocError>
    requires within { line.before ≤ length line.bytes.now }
    requires fits { line.before < 2 ^ 63 }
    ensures { OnOk result (out.new.items ≡ out.old.items
        ++ spot_in file.now number line.entry.bytes.now line.entry.before line.entry.after width) }
{
    let Line {
        bytes,
        before,
        after,
    } = line;
    push_at(out, file, number, before)?;
    push_text(out, bytes, before)?;
    push_under(out, bytes.len(), before, width.min(after))
}

/// Appends the place of a token of so many bytes, the line in which it begins, and carets under it.
/// It begins at this byte of the text, whose line is this one of the file.
pub fn push_spot(
    out: &mut Vec<u8>,
    file: &[u8],
    number: u64,
    text: &[u8],
    byte: usize,
    width: usize,
) -> Result<(), AllocError>
    requires { byte ≤ length text.now }
    ensures { OnOk result (out.new.items
        ≡ out.old.items ++ spot_lines file.now number text.now byte width) }
{
    let line = line_at(text, byte);
    push_spot_in(out, file, number, line, width)
}
