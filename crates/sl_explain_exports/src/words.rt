//! What is wrong with the exports of a table in words.

ghost use Rattle.std.specs.Prelude.{◌≡◌, ◌++◌, OnOk};
ghost use Rattle.std.specs.Fmt.{decimal};
ghost use Rattle.sl_explain_exports.specs.FaultWords as spec;
ghost use Rattle.sl_lex.specs.Views.{views};
ghost use Rattle.sl_preproc.specs.Expanded.{seen};

use crate::constructors::full_name;
use crate::findings::{Culprit, Finding};
use itoa::Buffer;
use sl_explain_heads::{table_of, text_at, text_before};
use sl_explain_lines::push_up_to;
use sl_explain_names::{has_here, push_kind};
use sl_explain_places::push_token_place;
use sl_lex::Tok;
use sl_preproc::Expanded;
use std::alloc::{AllocError, Global};

// ---- what is wrong

fn push_number(out: &mut Vec<u8>, number: u64) -> Result<(), AllocError>
    ensures { OnOk result (out.new.items ≡ out.old.items ++ decimal number) }
{
    let mut buffer = Buffer::new();
    out.extend_from_slice(buffer.format(number).as_bytes())
}

fn push_at(out: &mut Vec<u8>, tokens: &[Tok<'_>], index: usize) -> Result<(), AllocError>
    ensures { OnOk result (out.new.items
        ≡ out.old.items ++ spec.words_at (views tokens.now) index) }
{
    push_up_to(out, 40, text_at(tokens, index))
}

/// Appends what is exported from this index on.
fn push_exported(out: &mut Vec<u8>, tokens: &[Tok<'_>], index: usize) -> Result<(), AllocError>
    ensures { OnOk result (out.new.items
        ≡ out.old.items ++ spec.export_words (views tokens.now) index) }
{
    if has_here(tokens, index, b"*") {
        out.extend_from_slice(b"this")
    } else {
        push_at(out, tokens, index)
    }
}

/// Appends the token that is so many before the one of this index.
fn push_before(
    out: &mut Vec<u8>,
    tokens: &[Tok<'_>],
    index: usize,
    back: usize,
) -> Result<(), AllocError>
    ensures { OnOk result (out.new.items
        ≡ out.old.items ++ spec.words_before (views tokens.now) index back) }
{
    push_up_to(out, 40, text_before(tokens, index, back))
}

/// Appends the table of the constructor whose first token has this index.
fn push_table(
    alloc: Global,
    out: &mut Vec<u8>,
    tokens: &[Tok<'_>],
    start: usize,
) -> Result<(), AllocError>
    ensures { OnOk result (out.new.items
        ≡ out.old.items ++ spec.words_of_table (views tokens.now) start) }
{
    let table = table_of(alloc, tokens, start)?;
    push_up_to(out, 40, full_name(table))
}

fn push_size(out: &mut Vec<u8>, size: u64) -> Result<(), AllocError>
    ensures { OnOk result (out.new.items ≡ out.old.items ++ spec.size_words size) }
{
    out.extend_from_slice(b" has size ")?;
    push_number(out, size)
}

#[tactic(auto, unfolding(crate::specs::FaultWords::range_words))]
fn push_range(out: &mut Vec<u8>, low: u64, last: u64) -> Result<(), AllocError>
    ensures { OnOk result (out.new.items ≡ out.old.items ++ spec.range_words low last) }
{
    out.extend_from_slice(b"bits ")?;
    push_number(out, low)?;
    out.extend_from_slice(b" to ")?;
    push_number(out, last.saturating_sub(1))
}

fn push_bits(out: &mut Vec<u8>, low: u64, last: u64, bits: u64) -> Result<(), AllocError>
    ensures { OnOk result (out.new.items ≡ out.old.items ++ spec.bits_words low last bits) }
{
    push_range(out, low, last)?;
    out.extend_from_slice(b" of ")?;
    push_number(out, bits)
}

/// Appends words round the place of a token.
fn push_round(
    out: &mut Vec<u8>,
    before: &[u8],
    text: &Expanded,
    tokens: &[Tok<'_>],
    index: usize,
    after: &[u8],
) -> Result<(), AllocError>
    ensures { OnOk result (out.new.items ≡ out.old.items
        ++ spec.round_words before.now (seen text.now) (views tokens.now) index after.now) }
{
    out.extend_from_slice(before)?;
    push_token_place(out, text, tokens, index)?;
    out.extend_from_slice(after)
}

/// Appends that a constant is exported, and where the table is assigned.
#[tactic(auto, unfolding(crate::specs::FaultWords::assigner_words))]
fn push_assigner(
    out: &mut Vec<u8>,
    text: &Expanded,
    tokens: &[Tok<'_>],
    at: usize,
) -> Result<(), AllocError>
    ensures { OnOk result (out.new.items ≡ out.old.items
        ++ spec.assigner_words (seen text.now) (views tokens.now) at) }
{
    let before = b" exports a constant, and ";
    push_round(out, before, text, tokens, at, b" assigns it")
}

/// Appends where the first constructor is that exports.
#[tactic(auto, unfolding(crate::specs::FaultWords::other_words))]
fn push_first(
    out: &mut Vec<u8>,
    text: &Expanded,
    tokens: &[Tok<'_>],
    first: usize,
) -> Result<(), AllocError>
    ensures { OnOk result (out.new.items ≡ out.old.items
        ++ spec.other_words (seen text.now) (views tokens.now) first) }
{
    push_round(out, b", and ", text, tokens, first, b" exports size ")
}

/// Appends that another constructor exports something else.
fn push_other(
    out: &mut Vec<u8>,
    text: &Expanded,
    tokens: &[Tok<'_>],
    first: usize,
    other: u64,
) -> Result<(), AllocError>
    ensures { OnOk result (out.new.items ≡ out.old.items
        ++ spec.exports_words (seen text.now) (views tokens.now) first other) }
{
    push_first(out, text, tokens, first)?;
    push_number(out, other)
}

/// Appends what is wrong with a culprit.
fn push_words(
    alloc: Global,
    out: &mut Vec<u8>,
    text: &Expanded,
    tokens: &[Tok<'_>],
    culprit: Culprit,
) -> Result<(), AllocError>
    ensures { OnOk result (out.new.items ≡ out.old.items
        ++ spec.fault_words (seen text.now) (views tokens.now) culprit.start culprit.index
        culprit.finding) }
{
    let Culprit {
        start,
        index,
        finding,
    } = culprit;
    match finding {
        Finding::Silent(exporter) => {
            let before = b"this exports nothing, and ";
            push_round(out, before, text, tokens, exporter, b" exports")
        }
        Finding::AssignedAt(at) => {
            push_table(alloc, out, tokens, start)?;
            push_assigner(out, text, tokens, at)
        }
        Finding::BitsPast { low, last, bits } => push_bits(out, low, last, bits),
        Finding::NoExport => {
            push_at(out, tokens, index)?;
            out.extend_from_slice(b" exports nothing")
        }
        Finding::Target(kind) => {
            push_at(out, tokens, index)?;
            push_kind(out, kind)
        }
        Finding::KeptPast(size) => {
            push_before(out, tokens, index, 2)?;
            push_size(out, size)
        }
        Finding::CutPast(size) => {
            push_before(out, tokens, index, 2)?;
            push_size(out, size)
        }
        Finding::SizesDiffer { size, first, other } => {
            push_exported(out, tokens, index)?;
            push_size(out, size)?;
            push_other(out, text, tokens, first, other)
        }
    }
}

/// Appends the line that says what is wrong with a culprit.
#[tactic(auto, unfolding(crate::specs::FaultWords::fault_line))]
pub fn push_fault(
    alloc: Global,
    out: &mut Vec<u8>,
    text: &Expanded,
    tokens: &[Tok<'_>],
    culprit: Culprit,
) -> Result<(), AllocError>
    ensures { OnOk result (out.new.items ≡ out.old.items
        ++ spec.fault_line (seen text.now) (views tokens.now) culprit) }
{
    out.extend_from_slice(b"  fault ")?;
    push_words(alloc, out, text, tokens, culprit)?;
    out.extend_from_slice(b"\n")
}

// ---- what to write instead

/// Appends the same jump, to what the register at this index holds.
fn push_jump(out: &mut Vec<u8>, tokens: &[Tok<'_>], index: usize) -> Result<(), AllocError>
    ensures { OnOk result (out.new.items
        ≡ out.old.items ++ spec.jump_words (views tokens.now) index) }
{
    push_before(out, tokens, index, 1)?;
    out.extend_from_slice(b" [")?;
    push_at(out, tokens, index)?;
    out.extend_from_slice(b"];")
}

/// Appends the register before this index with more bytes.
fn push_wider(out: &mut Vec<u8>, tokens: &[Tok<'_>], index: usize) -> Result<(), AllocError>
    ensures { OnOk result (out.new.items
        ≡ out.old.items ++ spec.wider_words (views tokens.now) index) }
{
    out.extend_from_slice(b"zext(")?;
    push_before(out, tokens, index, 2)?;
    out.extend_from_slice(b")")
}

/// Appends the line that says what to write in the place of a culprit, where that is known.
#[tactic(auto, unfolding(crate::specs::FaultWords::advice_line))]
pub fn push_advice(
    out: &mut Vec<u8>,
    tokens: &[Tok<'_>],
    culprit: Culprit,
) -> Result<(), AllocError>
    ensures { OnOk result (out.new.items
        ≡ out.old.items ++ spec.advice_line (views tokens.now) culprit) }
{
    let index = culprit.index;
    match culprit.finding {
        Finding::Target(_) => {
            out.extend_from_slice(b"  write ")?;
            push_jump(out, tokens, index)?;
            out.extend_from_slice(b"\n")
        }
        Finding::KeptPast(_) => {
            out.extend_from_slice(b"  write ")?;
            push_wider(out, tokens, index)?;
            out.extend_from_slice(b"\n")
        }
        _ => Ok(()),
    }
}

// ---- which sentence

/// The sentence of its rule that asks for what a culprit lacks, by its number among those of the
/// rule.
pub fn sentence_of(culprit: Culprit) -> usize
    ensures { result ≡ spec.sentence_of culprit }
{
    match culprit.finding {
        Finding::Silent(_) => 1,
        Finding::NoExport => 2,
        Finding::AssignedAt(_) => 0,
        Finding::Target(_) => 1,
        Finding::KeptPast(_) => 0,
        Finding::CutPast(_) => 1,
        Finding::BitsPast { .. } => 2,
        Finding::SizesDiffer { .. } => 4,
    }
}
