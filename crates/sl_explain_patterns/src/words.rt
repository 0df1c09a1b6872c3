//! What is wrong with a part of a pattern in words, and what to write instead.

ghost use Rattle.std.specs.Prelude.{◌≡◌, ◌<◌, ◌++◌, OnOk};
ghost use Rattle.sl_explain_lines.specs.Excerpts.{shown_up_to};
ghost use Rattle.sl_explain_patterns.specs.FaultWords as spec;
ghost use Rattle.sl_lex.specs.Views.{views};

use crate::findings::{Culprit, Finding};
use sl_explain_heads::text_at;
use sl_explain_lines::{push_fact, push_up_to};
use sl_explain_names::{push_hex, text_after};
use sl_lex::Tok;
use std::alloc::{AllocError, Global};

// ---- what is wrong

fn push_at(out: &mut Vec<u8>, tokens: &[Tok<'_>], index: usize) -> Result<(), AllocError>
    ensures { OnOk result (out.new.items
        ≡ out.old.items ++ spec.words_at (views tokens.now) index) }
{
    push_up_to(out, 40, text_at(tokens, index))
}

/// 2 to the power of so many, and 0 from 64 on.
fn power(bits: u64) -> u64
    ensures { result ≡ spec.power bits }
{
    if bits < 64 { 1 << bits } else { 0 }
}

/// Appends the least value of a field whose other values have so many bits.
#[tactic(auto, unfolding(crate::specs::FaultWords::least_words))]
fn push_least(alloc: Global, out: &mut Vec<u8>, bits: u64, signed: bool) -> Result<(), AllocError>
    ensures { OnOk result (out.new.items ≡ out.old.items ++ spec.least_words bits signed) }
{
    if signed {
        out.extend_from_slice(b" has -")?;
        push_hex(alloc, out, power(bits))
    } else {
        out.extend_from_slice(b" has 0x0")
    }
}

/// Appends the greatest one.
#[tactic(auto, unfolding(crate::specs::FaultWords::greatest_words))]
fn push_greatest(alloc: Global, out: &mut Vec<u8>, bits: u64) -> Result<(), AllocError>
    ensures { OnOk result (out.new.items ≡ out.old.items ++ spec.greatest_words bits) }
{
    out.extend_from_slice(b" to ")?;
    push_hex(alloc, out, power(bits).saturating_sub(1))
}

/// Appends which values the field at this index has.
fn push_values(
    alloc: Global,
    out: &mut Vec<u8>,
    tokens: &[Tok<'_>],
    index: usize,
    bits: u64,
    signed: bool,
) -> Result<(), AllocError>
    ensures { OnOk result (out.new.items ≡ out.old.items
        ++ spec.fault_words (views tokens.now) index (Finding.Values bits signed)) }
{
    push_at(out, tokens, index)?;
    push_least(alloc, out, bits, signed)?;
    push_greatest(alloc, out, bits)
}

/// Appends words and the name of the token whose definition begins at this index.
#[tactic(auto, unfolding(crate::specs::FaultWords::side_words))]
fn push_side(
    out: &mut Vec<u8>,
    words: &[u8],
    tokens: &[Tok<'_>],
    head: usize,
) -> Result<(), AllocError>
    ensures { OnOk result (out.new.items
        ≡ out.old.items ++ spec.side_words words.now (views tokens.now) head) }
{
    out.extend_from_slice(words)?;
    push_up_to(out, 40, text_after(tokens, head, 2))
}

/// Appends which tokens are on the left and on the right.
fn push_tokens(
    out: &mut Vec<u8>,
    tokens: &[Tok<'_>],
    left: usize,
    right: usize,
) -> Result<(), AllocError>
    ensures { OnOk result (out.new.items ≡ out.old.items
        ++ spec.fault_words (views tokens.now) 0 (Finding.Tokens left right)) }
{
    push_side(out, b"on the left ", tokens, left)?;
    push_side(out, b", on the right ", tokens, right)
}

fn push_words(
    alloc: Global,
    out: &mut Vec<u8>,
    tokens: &[Tok<'_>],
    culprit: Culprit,
) -> Result<(), AllocError>
    ensures { OnOk result (out.new.items ≡ out.old.items
        ++ spec.fault_words (views tokens.now) culprit.index culprit.finding) }
{
    match culprit.finding {
        Finding::Values { bits, signed } => {
            push_values(alloc, out, tokens, culprit.index, bits, signed)
        }
        Finding::Tokens { left, right } => push_tokens(out, tokens, left, right),
    }
}

/// Appends the line that says what is wrong with a part of a pattern.
#[tactic(auto, unfolding(crate::specs::FaultWords::fault_line))]
pub fn push_fault(
    alloc: Global,
    out: &mut Vec<u8>,
    tokens: &[Tok<'_>],
    culprit: Culprit,
) -> Result<(), AllocError>
    ensures { OnOk result (out.new.items
        ≡ out.old.items ++ spec.fault_line (views tokens.now) culprit) }
{
    let mut words = Vec::new(alloc);
    push_words(alloc, &mut words, tokens, culprit)?;
    push_fact(out, b"  fault ", words.as_slice())
}

// ---- what to write instead

/// Appends the line that says what to write instead, where that is known.
#[tactic(auto, unfolding(crate::specs::FaultWords::advice_line))]
pub fn push_advice(out: &mut Vec<u8>, culprit: Culprit) -> Result<(), AllocError>
    ensures { OnOk result (out.new.items ≡ out.old.items ++ spec.advice_line culprit.finding) }
{
    match culprit.finding {
        Finding::Values { .. } => Ok(()),
        Finding::Tokens { .. } => {
            push_fact(out, b"  write ", b"; for bytes one behind the other")
        }
    }
}
