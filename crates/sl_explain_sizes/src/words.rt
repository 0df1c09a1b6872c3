//! What is wrong with the sizes of a part of a section in words.

ghost use Rattle.std.specs.Prelude.{[], ◌≡◌, ◌+◌, ◌++◌, ◌≤◌, OnOk, drop, length, slice_index_or, take};
ghost use Rattle.std.specs.Fmt.{decimal};
ghost use Rattle.sl_explain_lines.specs.Excerpts.{before, is_in_line};
ghost use Rattle.sl_explain_sizes.specs.FaultWords as spec;
ghost use Rattle.sl_lex.specs.Views.{views};
ghost use Rattle.sl_preproc.specs.Expanded.{seen};
ghost use Rattle.sl_preproc.specs.Works.{names_of};

use crate::faults::{Culprit, Finding, Inside, Why};
use crate::slices::Extent;
use itoa::Buffer;
use sl_explain_heads::text_at;
use sl_explain_lines::{push_fact, push_line, push_up_to};
use sl_lex::Tok;
use sl_preproc::Expanded;
use std::alloc::{AllocError, Global};

// ---- what is wrong

fn push_number(out: &mut Vec<u8>, number: u64) -> Result<(), AllocError>
    ensures { OnOk result (out.new.items ≡ out.old.items ++ decimal number) }
{
    let mut buffer = Buffer::new();
    out.extend_from_slice(buffer.format(number).as_bytes())
}

/// The bytes of a part of a text.
fn bytes_of(bytes: &[u8], part: Extent) -> &[u8]
    ensures { result.now ≡ take part.width (drop part.byte bytes.now) }
{
    let (_, left) = bytes.split_at(part.byte.min(bytes.len()));
    let (front, _) = left.split_at(part.width.min(left.len()));
    front
}

fn push_part(out: &mut Vec<u8>, bytes: &[u8], part: Extent) -> Result<(), AllocError>
    ensures { OnOk result (out.new.items ≡ out.old.items ++ spec.part_words bytes.now part) }
{
    push_up_to(out, 40, bytes_of(bytes, part))
}

#[tactic(auto, unfolding(crate::specs::FaultWords::sized_words))]
fn push_sized(
    out: &mut Vec<u8>,
    bytes: &[u8],
    part: Extent,
    words: &[u8],
    size: u64,
) -> Result<(), AllocError>
    ensures { OnOk result (out.new.items
        ≡ out.old.items ++ spec.sized_words bytes.now part words.now size) }
{
    push_part(out, bytes, part)?;
    out.extend_from_slice(words)?;
    push_number(out, size)
}

#[tactic(auto, unfolding(crate::specs::FaultWords::other_words))]
fn push_other(out: &mut Vec<u8>, bytes: &[u8], part: Extent, size: u64) -> Result<(), AllocError>
    ensures { OnOk result (out.new.items ≡ out.old.items ++ spec.other_words bytes.now part size) }
{
    out.extend_from_slice(b", ")?;
    push_sized(out, bytes, part, b" has ", size)?;
    out.extend_from_slice(b", and they are asked to be equal")
}

#[tactic(auto, unfolding(crate::specs::FaultWords::asked_words))]
fn push_asked(out: &mut Vec<u8>, size: u64) -> Result<(), AllocError>
    ensures { OnOk result (out.new.items ≡ out.old.items ++ spec.asked_words size) }
{
    out.extend_from_slice(b", and is asked to have ")?;
    push_number(out, size)
}

#[tactic(auto, unfolding(crate::specs::FaultWords::kept_words))]
fn push_kept(out: &mut Vec<u8>, count: u64) -> Result<(), AllocError>
    ensures { OnOk result (out.new.items ≡ out.old.items ++ spec.kept_words count) }
{
    out.extend_from_slice(b", of which ")?;
    push_number(out, count)?;
    out.extend_from_slice(b" bytes are kept")
}

fn push_why(out: &mut Vec<u8>, why: Why) -> Result<(), AllocError>
    ensures { OnOk result (out.new.items ≡ out.old.items ++ spec.why_words why) }
{
    match why {
        Why::Kept(count) => push_kept(out, count),
        Why::Local => Ok(()),
        Why::Argument => Ok(()),
        Why::Amount => Ok(()),
        Why::Pointer => Ok(()),
        Why::Value => Ok(()),
    }
}

/// Appends words round a part.
fn push_round(
    out: &mut Vec<u8>,
    words: &[u8],
    bytes: &[u8],
    part: Extent,
    after: &[u8],
) -> Result<(), AllocError>
    ensures { OnOk result (out.new.items
        ≡ out.old.items ++ spec.round_words words.now bytes.now part after.now) }
{
    out.extend_from_slice(words)?;
    push_part(out, bytes, part)?;
    out.extend_from_slice(after)
}

#[tactic(auto, unfolding(crate::specs::FaultWords::unsaid_words))]
fn push_unsaid(out: &mut Vec<u8>, bytes: &[u8], part: Extent) -> Result<(), AllocError>
    ensures { OnOk result (out.new.items ≡ out.old.items ++ spec.unsaid_words bytes.now part) }
{
    push_round(out, b"nothing says the size of ", bytes, part, b"")
}

/// Appends what is wrong.
fn push_finding(out: &mut Vec<u8>, bytes: &[u8], finding: Finding) -> Result<(), AllocError>
    ensures { OnOk result (out.new.items ≡ out.old.items ++ spec.finding_words bytes.now finding) }
{
    match finding {
        Finding::Differ {
            left,
            left_size,
            right,
            right_size,
        } => {
            push_sized(out, bytes, left, b" has size ", left_size)?;
            push_other(out, bytes, right, right_size)
        }
        Finding::Asked {
            part,
            size,
            asked,
            ..
        } => {
            push_sized(out, bytes, part, b" has size ", size)?;
            push_asked(out, asked)
        }
        Finding::Unsaid { part, why } => {
            push_unsaid(out, bytes, part)?;
            push_why(out, why)
        }
        Finding::Tied => Ok(()),
    }
}

// ---- where in a macro

fn is_in_line(byte: u8) -> bool
    ensures { result ≡ is_in_line byte }
{
    byte != b'\n'
}

/// How many bytes of its line are before this one.
fn count_before(bytes: &[u8], byte: usize) -> usize
    requires { byte ≤ length bytes.now }
    ensures before { result ≡ before bytes.now byte }
    ensures within { result ≤ byte }
{
    let (front, _) = bytes.split_at(byte);
    front
        .iter()
        .rev()
        .take_while(|byte| is_in_line(**byte))
        .count()
}

/// The column of a byte, counted from 1.
fn column_of(bytes: &[u8], byte: usize) -> u64
    requires { byte ≤ length bytes.now }
    ensures { result ≡ before bytes.now byte + 1 }
{
    count_before(bytes, byte) as u64 + 1
}

/// The name of the file with this number, or an empty one where there is none.
fn name_of(files: &[String], file: u32) -> &[u8]
    ensures { result.now ≡ slice_index_or (names_of files.now) file [] }
{
    match files.get(file as usize) {
        Some(name) => name.as_bytes(),
        None => b"",
    }
}

/// Appends the file, the line and the column of a byte.
#[tactic(auto, unfolding(crate::specs::FaultWords::byte_words))]
fn push_byte(out: &mut Vec<u8>, text: &Expanded, byte: usize) -> Result<(), AllocError>
    ensures { OnOk result (out.new.items ≡ out.old.items ++ spec.byte_words (seen text.now) byte) }
{
    let bytes = text.text.as_slice();
    let byte = byte.min(bytes.len());
    let place = text.place_of(byte);
    let file = name_of(text.files.as_slice(), place.file);
    push_line(out, file, u64::from(place.line))?;
    out.extend_from_slice(b":")?;
    push_number(out, column_of(bytes, byte))
}

#[tactic(auto, unfolding(crate::specs::FaultWords::macro_words))]
fn push_macro(out: &mut Vec<u8>, tokens: &[Tok<'_>], of: usize) -> Result<(), AllocError>
    ensures { OnOk result (out.new.items ≡ out.old.items ++ spec.macro_words (views tokens.now) of) }
{
    out.extend_from_slice(b" in ")?;
    push_up_to(out, 40, text_at(tokens, of))?;
    out.extend_from_slice(b", at ")
}

fn push_inside(
    out: &mut Vec<u8>,
    text: &Expanded,
    tokens: &[Tok<'_>],
    inside: Option<Inside>,
) -> Result<(), AllocError>
    ensures { OnOk result (out.new.items ≡ out.old.items
        ++ spec.inside_words (seen text.now) (views tokens.now) inside) }
{
    match inside {
        Some(inside) => {
            push_macro(out, tokens, inside.of)?;
            push_byte(out, text, inside.byte)
        }
        None => Ok(()),
    }
}

/// Appends the line that says what is wrong with the sizes of a part.
#[tactic(auto, unfolding(crate::specs::FaultWords::fault_line))]
pub fn push_fault(
    out: &mut Vec<u8>,
    text: &Expanded,
    tokens: &[Tok<'_>],
    culprit: Culprit,
) -> Result<(), AllocError>
    ensures { OnOk result (out.new.items
        ≡ out.old.items ++ spec.fault_line (seen text.now) (views tokens.now) culprit) }
{
    out.extend_from_slice(b"  fault ")?;
    push_finding(out, text.text.as_slice(), culprit.finding)?;
    push_inside(out, text, tokens, culprit.inside)?;
    out.extend_from_slice(b"\n")
}

// ---- what to write instead

#[tactic(auto, unfolding(crate::specs::FaultWords::nonzero_words))]
fn push_nonzero(out: &mut Vec<u8>, bytes: &[u8], part: Extent) -> Result<(), AllocError>
    ensures { OnOk result (out.new.items ≡ out.old.items ++ spec.nonzero_words bytes.now part) }
{
    push_part(out, bytes, part)?;
    out.extend_from_slice(b" != 0")
}

#[tactic(auto, unfolding(crate::specs::FaultWords::cut_words))]
fn push_cut(out: &mut Vec<u8>, bytes: &[u8], part: Extent, size: u64) -> Result<(), AllocError>
    ensures { OnOk result (out.new.items ≡ out.old.items ++ spec.cut_words bytes.now part size) }
{
    push_sized(out, bytes, part, b":", size)
}

#[tactic(auto, unfolding(crate::specs::FaultWords::local_words))]
fn push_local(out: &mut Vec<u8>, bytes: &[u8], part: Extent) -> Result<(), AllocError>
    ensures { OnOk result (out.new.items ≡ out.old.items ++ spec.local_words bytes.now part) }
{
    push_round(out, b"local ", bytes, part, b":2 with the size in bytes")
}

#[tactic(auto, unfolding(crate::specs::FaultWords::uncut_words))]
fn push_uncut(out: &mut Vec<u8>, bytes: &[u8], part: Extent, count: u64) -> Result<(), AllocError>
    ensures { OnOk result (out.new.items ≡ out.old.items ++ spec.uncut_words bytes.now part count) }
{
    push_sized(out, bytes, part, b" without :", count)
}

/// Appends words that say what to write instead.
fn push_write(out: &mut Vec<u8>, words: &[u8]) -> Result<(), AllocError>
    ensures { OnOk result (out.new.items ≡ out.old.items ++ spec.write words.now) }
{
    push_fact(out, b"  write ", words)
}

fn push_asked_advice(
    alloc: Global,
    out: &mut Vec<u8>,
    bytes: &[u8],
    part: Extent,
    size: u64,
    asked: u64,
    is_condition: bool,
    is_token: bool,
) -> Result<(), AllocError>
    ensures { OnOk result (out.new.items ≡ out.old.items
        ++ spec.asked_advice bytes.now part size asked is_condition is_token) }
{
    let mut words = Vec::new(alloc);
    if is_condition {
        push_nonzero(&mut words, bytes, part)?;
        push_write(out, words.as_slice())
    } else if is_token && asked < size {
        push_cut(&mut words, bytes, part, asked)?;
        push_write(out, words.as_slice())
    } else {
        Ok(())
    }
}

fn push_unsaid_advice(
    alloc: Global,
    out: &mut Vec<u8>,
    bytes: &[u8],
    part: Extent,
    why: Why,
) -> Result<(), AllocError>
    ensures { OnOk result (out.new.items ≡ out.old.items ++ spec.unsaid_advice bytes.now part why) }
{
    let mut words = Vec::new(alloc);
    match why {
        Why::Local => {
            push_local(&mut words, bytes, part)?;
            push_write(out, words.as_slice())
        }
        Why::Kept(count) => {
            push_uncut(&mut words, bytes, part, count)?;
            push_write(out, words.as_slice())
        }
        Why::Argument => push_write(out, b"a local with a size as the argument"),
        Why::Amount => {
            push_write(
                out,
                b"an action name for the amount, or a local with a size",
            )
        }
        Why::Pointer => {
            push_write(
                out,
                b"an action name for the pointer, or a local with a size",
            )
        }
        Why::Value => push_write(out, b"a local with a size in its place"),
    }
}

/// Appends the line that says what to write instead, where that is known.
#[tactic(auto, unfolding(crate::specs::FaultWords::advice_line))]
pub fn push_advice(
    alloc: Global,
    out: &mut Vec<u8>,
    text: &Expanded,
    culprit: Culprit,
) -> Result<(), AllocError>
    ensures { OnOk result (out.new.items
        ≡ out.old.items ++ spec.advice_line (seen text.now) culprit) }
{
    let bytes = text.text.as_slice();
    match culprit.finding {
        Finding::Asked {
            part,
            size,
            asked,
            is_condition,
            is_token,
        } => push_asked_advice(alloc, out, bytes, part, size, asked, is_condition, is_token),
        Finding::Unsaid { part, why } => push_unsaid_advice(alloc, out, bytes, part, why),
        Finding::Differ { .. } => Ok(()),
        Finding::Tied => Ok(()),
    }
}
