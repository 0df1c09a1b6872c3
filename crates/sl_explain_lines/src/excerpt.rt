//! What is shown of bytes and of lines.

ghost use Rattle.std.specs.Prelude.{◌≡◌, ◌++◌, ◌≤◌, OnOk, drop, length, map, replicate, take};
ghost use Rattle.sl_explain_lines.specs.Excerpts.{begins, carets, excerpt, most as spec_most};
ghost use Rattle.sl_explain_lines.specs.Excerpts.{shown_byte, shown_up_to, under};

use std::alloc::AllocError;

/// How many bytes of a line are shown at most.
const MOST: usize = 90;

/// A byte as it is shown.
fn shown_byte(byte: u8) -> u8
    ensures { result ≡ shown_byte byte }
{
    match byte {
        b'\t' => b' ',
        b'\r' => b' ',
        b' '..=b'~' => byte,
        _ => b'?',
    }
}

/// Appends bytes as they are shown.
fn push_shown(out: &mut Vec<u8>, bytes: &[u8]) -> Result<(), AllocError>
    ensures { OnOk result (out.new.items ≡ out.old.items ++ map shown_byte bytes.now) }
{
    'bytes: for byte in bytes {
        out.push(shown_byte(*byte))?;
    }
    Ok(())
}

/// Appends at most so many bytes as they are shown, and two dots where there are more.
pub fn push_up_to(out: &mut Vec<u8>, most: usize, bytes: &[u8]) -> Result<(), AllocError>
    ensures { OnOk result (out.new.items ≡ out.old.items ++ shown_up_to most bytes.now) }
{
    if most < bytes.len() {
        let (front, _) = bytes.split_at(most);
        push_shown(out, front)?;
        out.extend_from_slice(b"..")
    } else {
        push_shown(out, bytes)
    }
}

/// The first byte that is shown of a line of so many bytes, for a token at this one.
fn begin(bytes: usize, at: usize) -> usize
    ensures { result ≡ begins bytes at }
{
    if bytes <= MOST || at < 60 { 0 } else { at - 30 }
}

/// The part of a line that is shown, for a token at this byte.
fn part_shown(line: &[u8], at: usize) -> &[u8]
    requires { at ≤ length line.now }
    ensures { result.now ≡ take spec_most (drop (begins (length line.now) at) line.now) }
{
    let (_, rest) = line.split_at(begin(line.len(), at));
    let (part, _) = rest.split_at(MOST.min(rest.len()));
    part
}

/// Appends what is shown of a line, for a token at this byte.
pub fn push_excerpt(out: &mut Vec<u8>, line: &[u8], at: usize) -> Result<(), AllocError>
    requires { at ≤ length line.now }
    ensures { OnOk result (out.new.items ≡ out.old.items ++ excerpt line.now at) }
{
    push_shown(out, part_shown(line, at))
}

/// Appends a byte so many times.
fn push_times(out: &mut Vec<u8>, byte: u8, times: usize) -> Result<(), AllocError>
    ensures { OnOk result (out.new.items ≡ out.old.items ++ replicate times byte) }
{
    'times: for _time in 0..times {
        out.push(byte)?;
    }
    Ok(())
}

/// How many carets stand under a token of so many bytes.
fn width_shown(bytes: usize, at: usize, width: usize) -> usize
    requires { at ≤ bytes }
    ensures { result ≡ length (under bytes at width) }
{
    let room = MOST.saturating_sub(at - begin(bytes, at));
    width.min(room).max(1)
}

/// Appends the carets under a token of so many bytes, at this byte of a line.
pub fn push_carets(
    out: &mut Vec<u8>,
    bytes: usize,
    at: usize,
    width: usize,
) -> Result<(), AllocError>
    requires { at ≤ bytes }
    ensures { OnOk result (out.new.items ≡ out.old.items ++ carets bytes at width) }
{
    push_times(out, b' ', at - begin(bytes, at))?;
    push_times(out, b'^', width_shown(bytes, at, width))
}
