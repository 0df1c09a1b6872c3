//! What more is said of files, bytes, items and tables that are refused.

ghost use Rattle.std.specs.Prelude.{[], ◌≡◌, ◌++◌, OnOk, option_map, slice_index_or};
ghost use Rattle.sl_lex.specs.Faults.Fault.{NoLexeme, OpenQuote, TooWide};
ghost use Rattle.sl_explain.specs.Facts.{bad_byte, byte_asked, byte_facts};
ghost use Rattle.sl_explain.specs.Facts.{cause_facts, end_of, end_spot, fault, flaw_facts};
ghost use Rattle.sl_explain.specs.Facts.{culprit_facts, export_facts, export_lines};
ghost use Rattle.sl_explain.specs.Facts.{exported_facts, item_facts, rule_facts, wanted_exports};
ghost use Rattle.sl_explain.specs.Facts.{wanted_lines, word_facts, word_lines};
ghost use Rattle.sl_explain.specs.Facts.{is_of_pattern, item_lines, spot_at, token_spot};
ghost use Rattle.sl_explain.specs.Errors.{lex_facts};
ghost use Rattle.sl_lex.specs.Views.{view, views};
ghost use Rattle.sl_preproc.specs.Expanded.{seen};
ghost use Rattle.sl_preproc.specs.Works.{names_of};

use crate::sentences::{
    push_advice_on_flaw, push_asked, push_asked_of_cause, push_asked_of_flaw, push_sentence,
};
use crate::sizes::push_flawed_facts;
use crate::syntax::token_at;
use sl_bind_compile::Flaw;
use sl_explain_exports::find_export_culprit;
use sl_explain_heads::{push_head, push_pattern};
use sl_explain_lines::{push_fact, push_spot, push_up_to};
use sl_explain_names::{
    Culprit, find_culprit, push_advice as push_culprit_advice, push_fault as push_culprit_fault,
    sentence_of,
};
use sl_lex::{LexError, Tok};
use sl_preproc::Expanded;
use sl_preproc_directives::fault::Cause;
use std::alloc::{AllocError, Global};

/// Appends what is wrong.
#[tactic(auto, unfolding(crate::specs::Facts::fault))]
pub fn push_fault(out: &mut Vec<u8>, words: &[u8]) -> Result<(), AllocError>
    ensures { OnOk result (out.new.items ≡ out.old.items ++ fault words.now) }
{
    push_fact(out, b"  fault ", words)
}

/// Appends what more is said where a file can't be had or a directive is refused.
pub fn push_cause_facts(out: &mut Vec<u8>, cause: Cause) -> Result<(), AllocError>
    ensures { OnOk result (out.new.items ≡ out.old.items ++ cause_facts cause) }
{
    push_asked_of_cause(out, cause)
}

// ---- places

/// The name of the file with this number, or an empty one where there is none.
pub fn name_of(files: &[String], file: u32) -> &[u8]
    ensures { result.now ≡ slice_index_or (names_of files.now) file [] }
{
    match files.get(file as usize) {
        Some(name) => name.as_bytes(),
        None => b"",
    }
}

/// Appends the lines of what has so many bytes from this byte of the text on.
#[tactic(auto, unfolding(crate::specs::Facts::spot_at))]
pub fn push_spot_at(
    out: &mut Vec<u8>,
    text: &Expanded,
    byte: usize,
    width: usize,
) -> Result<(), AllocError>
    ensures { OnOk result (out.new.items ≡ out.old.items ++ spot_at (seen text.now) byte width) }
{
    let bytes = text.text.as_slice();
    let byte = byte.min(bytes.len());
    let place = text.place_of(byte);
    let file = name_of(text.files.as_slice(), place.file);
    push_spot(out, file, u64::from(place.line), bytes, byte, width)
}

/// The end of a text: that of its last line.
fn end_of(bytes: &[u8]) -> usize
    ensures { result ≡ end_of bytes.now }
{
    match bytes.last() {
        Some(b'\n') => bytes.len() - 1,
        _ => bytes.len(),
    }
}

/// Appends the lines of the text's end.
#[tactic(auto, unfolding(crate::specs::Facts::end_spot))]
fn push_end(out: &mut Vec<u8>, text: &Expanded) -> Result<(), AllocError>
    ensures { OnOk result (out.new.items ≡ out.old.items ++ end_spot (seen text.now)) }
{
    let bytes = text.text.as_slice();
    if bytes.is_empty() {
        Ok(())
    } else {
        push_spot_at(out, text, end_of(bytes), 1)
    }
}

/// Appends the lines of a token, or of the text's end.
pub fn push_token_spot(
    out: &mut Vec<u8>,
    text: &Expanded,
    token: Option<&Tok<'_>>,
) -> Result<(), AllocError>
    ensures { OnOk result (out.new.items ≡ out.old.items
        ++ token_spot (seen text.now) (option_map (λ t. view t.now) token.entry)) }
{
    match token {
        Some(token) => push_spot_at(out, text, token.from, token.text.len()),
        None => push_end(out, text),
    }
}

// ---- bytes

/// The byte at this place of a text, or 0.
fn byte_at(bytes: &[u8], at: usize) -> u8
    ensures { result ≡ slice_index_or bytes.now at 0 }
{
    match bytes.get(at) {
        Some(byte) => *byte,
        None => 0,
    }
}

/// Appends which byte is bad.
#[tactic(auto, unfolding(crate::specs::Facts::bad_byte, crate::specs::Facts::fault))]
fn push_bad_byte(out: &mut Vec<u8>, byte: u8) -> Result<(), AllocError>
    ensures { OnOk result (out.new.items ≡ out.old.items ++ bad_byte byte) }
{
    let mut digits = [0; 2];
    hex::encode_to_slice(&[byte], &mut digits).unwrap();
    out.extend_from_slice(b"  fault byte 0x")?;
    push_up_to(out, 2, &digits)?;
    out.extend_from_slice(b"\n")
}

/// Appends what is asked of bytes.
#[tactic(auto, unfolding(crate::specs::Facts::byte_asked))]
fn push_asked_of_bytes(out: &mut Vec<u8>) -> Result<(), AllocError>
    ensures { OnOk result (out.new.items ≡ out.old.items ++ byte_asked) }
{
    push_asked(
        out,
        b"bytes outside of comments are those of words, numbers, texts and marks",
    )
}

/// Appends what more is said of a byte with which nothing goes on.
#[tactic(auto, unfolding(crate::specs::Facts::byte_facts))]
fn push_bad_byte_facts(out: &mut Vec<u8>, text: &Expanded, at: usize) -> Result<(), AllocError>
    ensures { OnOk result (out.new.items ≡ out.old.items
        ++ byte_facts (seen text.now) NoLexeme at) }
{
    push_spot_at(out, text, at, 1)?;
    push_bad_byte(out, byte_at(text.text.as_slice(), at))?;
    push_asked_of_bytes(out)
}

/// Appends what more is said of a quote that isn't closed.
#[tactic(auto, unfolding(crate::specs::Facts::byte_facts))]
fn push_open_quote_facts(out: &mut Vec<u8>, text: &Expanded, at: usize) -> Result<(), AllocError>
    ensures { OnOk result (out.new.items ≡ out.old.items
        ++ byte_facts (seen text.now) OpenQuote at) }
{
    push_spot_at(out, text, at, 1)?;
    push_asked(out, b"a quoted text ends in its line")
}

/// Appends what more is said of an integer that is too wide.
#[tactic(auto, unfolding(crate::specs::Facts::byte_facts))]
fn push_wide_facts(out: &mut Vec<u8>, text: &Expanded, at: usize) -> Result<(), AllocError>
    ensures { OnOk result (out.new.items ≡ out.old.items
        ++ byte_facts (seen text.now) TooWide at) }
{
    push_spot_at(out, text, at, 1)?;
    push_asked(out, b"an integer is at most 2^64 - 1")
}

/// Appends what more is said of a text that has no tokens.
pub fn push_lex_facts(out: &mut Vec<u8>, text: &Expanded, error: LexError) -> Result<(), AllocError>
    ensures { OnOk result (out.new.items ≡ out.old.items ++ lex_facts (seen text.now) error) }
{
    match error {
        LexError::BadByte(at) => push_bad_byte_facts(out, text, at),
        LexError::OpenString(at) => push_open_quote_facts(out, text, at),
        LexError::WideInteger(at) => push_wide_facts(out, text, at),
        LexError::NoMemory => Ok(()),
    }
}

// ---- items

/// Whether the flaw is one of a constructor's pattern.
fn is_of_pattern(flaw: Flaw) -> bool
    ensures { result ≡ is_of_pattern flaw }
{
    match flaw {
        Flaw::Rule(_) => false,
        Flaw::SizeClash => false,
        Flaw::SizeUnfixed => false,
        Flaw::InteriorEllipsis => true,
        Flaw::TokensDiffer => true,
        Flaw::Impossible => true,
        Flaw::TooManyCubes(_) => true,
        Flaw::WindowTooLong(_) => true,
    }
}

/// Appends the item whose first token has this index, if one is given: its head, and its pattern
/// where that is wanted.
#[tactic(auto, unfolding(crate::specs::Facts::item_lines))]
pub fn push_item(
    alloc: Global,
    out: &mut Vec<u8>,
    tokens: &[Tok<'_>],
    with_pattern: bool,
    index: Option<usize>,
) -> Result<(), AllocError>
    ensures { OnOk result (out.new.items
        ≡ out.old.items ++ item_lines (views tokens.now) with_pattern index) }
{
    let Some(index) = index else {
        return Ok(());
    };
    push_head(alloc, out, tokens, index)?;
    if with_pattern {
        push_pattern(alloc, out, tokens, index)
    } else {
        Ok(())
    }
}

/// Appends what more is said of a flaw of the item whose first token has this index, or of none,
/// without the word that is at fault.
#[tactic(auto, unfolding(crate::specs::Facts::flaw_facts))]
pub fn push_flaw_facts(
    alloc: Global,
    out: &mut Vec<u8>,
    tokens: &[Tok<'_>],
    flaw: Flaw,
    index: Option<usize>,
) -> Result<(), AllocError>
    ensures { OnOk result (out.new.items
        ≡ out.old.items ++ flaw_facts (views tokens.now) flaw index) }
{
    push_item(alloc, out, tokens, is_of_pattern(flaw), index)?;
    push_asked_of_flaw(out, flaw)?;
    push_advice_on_flaw(out, flaw)
}

// ---- words of items

/// Appends where a word is, and in which item: the one whose first token has this index.
#[tactic(auto, unfolding(crate::specs::Facts::word_lines))]
fn push_word_lines(
    alloc: Global,
    out: &mut Vec<u8>,
    text: &Expanded,
    tokens: &[Tok<'_>],
    index: usize,
    culprit: Culprit,
) -> Result<(), AllocError>
    ensures { OnOk result (out.new.items ≡ out.old.items
        ++ word_lines (seen text.now) (views tokens.now) index culprit) }
{
    push_token_spot(out, text, token_at(tokens, culprit.index))?;
    push_head(alloc, out, tokens, index)
}

/// Appends the sentence that a word breaks, and what to write instead.
#[tactic(auto, unfolding(crate::specs::Facts::wanted_lines))]
fn push_wanted_lines(
    alloc: Global,
    out: &mut Vec<u8>,
    tokens: &[Tok<'_>],
    number: u8,
    culprit: Culprit,
) -> Result<(), AllocError>
    ensures { OnOk result (out.new.items ≡ out.old.items
        ++ wanted_lines (views tokens.now) number culprit) }
{
    push_sentence(out, number, sentence_of(tokens, number, culprit))?;
    push_culprit_advice(alloc, out, tokens, number, culprit)
}

/// Appends what is said of a word that breaks the rule of this number, in the item whose first token
/// has this index.
#[tactic(auto, unfolding(crate::specs::Facts::culprit_facts))]
fn push_culprit_facts(
    alloc: Global,
    out: &mut Vec<u8>,
    text: &Expanded,
    tokens: &[Tok<'_>],
    number: u8,
    index: usize,
    culprit: Culprit,
) -> Result<(), AllocError>
    ensures { OnOk result (out.new.items ≡ out.old.items
        ++ culprit_facts (seen text.now) (views tokens.now) number index culprit) }
{
    push_word_lines(alloc, out, text, tokens, index, culprit)?;
    push_culprit_fault(alloc, out, tokens, index, culprit)?;
    push_wanted_lines(alloc, out, tokens, number, culprit)
}

/// Appends where a word is that breaks a rule on exports, and in which constructor.
#[tactic(auto, unfolding(crate::specs::Facts::export_lines))]
fn push_export_lines(
    alloc: Global,
    out: &mut Vec<u8>,
    text: &Expanded,
    tokens: &[Tok<'_>],
    culprit: sl_explain_exports::Culprit,
) -> Result<(), AllocError>
    ensures { OnOk result (out.new.items
        ≡ out.old.items ++ export_lines (seen text.now) (views tokens.now) culprit) }
{
    push_token_spot(out, text, token_at(tokens, culprit.index))?;
    push_head(alloc, out, tokens, culprit.start)
}

/// Appends the sentence that it breaks, and what to write instead.
#[tactic(auto, unfolding(crate::specs::Facts::wanted_exports))]
fn push_wanted_exports(
    out: &mut Vec<u8>,
    tokens: &[Tok<'_>],
    number: u8,
    culprit: sl_explain_exports::Culprit,
) -> Result<(), AllocError>
    ensures { OnOk result (out.new.items
        ≡ out.old.items ++ wanted_exports (views tokens.now) number culprit) }
{
    push_sentence(out, number, sl_explain_exports::sentence_of(culprit))?;
    sl_explain_exports::push_advice(out, tokens, culprit)
}

/// Appends what is said of a word that breaks the rule of this number on exports.
#[tactic(auto, unfolding(crate::specs::Facts::export_facts))]
fn push_export_facts(
    alloc: Global,
    out: &mut Vec<u8>,
    text: &Expanded,
    tokens: &[Tok<'_>],
    number: u8,
    culprit: sl_explain_exports::Culprit,
) -> Result<(), AllocError>
    ensures { OnOk result (out.new.items ≡ out.old.items
        ++ export_facts (seen text.now) (views tokens.now) number culprit) }
{
    push_export_lines(alloc, out, text, tokens, culprit)?;
    sl_explain_exports::push_fault(alloc, out, text, tokens, culprit)?;
    push_wanted_exports(out, tokens, number, culprit)
}

/// Appends what is said of a rule that the item with this first token breaks, with this word on
/// exports, if there is one.
#[tactic(auto, unfolding(crate::specs::Facts::exported_facts))]
fn push_exported_facts(
    alloc: Global,
    out: &mut Vec<u8>,
    text: &Expanded,
    tokens: &[Tok<'_>],
    number: u8,
    index: usize,
    culprit: Option<sl_explain_exports::Culprit>,
) -> Result<(), AllocError>
    ensures { OnOk result (out.new.items ≡ out.old.items
        ++ exported_facts (seen text.now) (views tokens.now) number index culprit) }
{
    match culprit {
        Some(culprit) => push_export_facts(alloc, out, text, tokens, number, culprit),
        None => push_flaw_facts(alloc, out, tokens, Flaw::Rule(number), Some(index)),
    }
}

/// Appends what is said of a rule that the item with this first token breaks, with the word that
/// breaks it, where there is one.
#[tactic(auto, unfolding(crate::specs::Facts::word_facts))]
fn push_word_facts(
    alloc: Global,
    out: &mut Vec<u8>,
    text: &Expanded,
    tokens: &[Tok<'_>],
    number: u8,
    index: usize,
    culprit: Option<Culprit>,
) -> Result<(), AllocError>
    ensures { OnOk result (out.new.items ≡ out.old.items
        ++ word_facts (seen text.now) (views tokens.now) number index culprit) }
{
    match culprit {
        Some(culprit) => push_culprit_facts(alloc, out, text, tokens, number, index, culprit),
        None => {
            let culprit = find_export_culprit(alloc, tokens, index, number)?;
            push_exported_facts(alloc, out, text, tokens, number, index, culprit)
        }
    }
}

/// Appends what is said of a rule that the item with this first token breaks, or the whole text.
#[tactic(auto, unfolding(crate::specs::Facts::rule_facts))]
fn push_rule_facts(
    alloc: Global,
    out: &mut Vec<u8>,
    text: &Expanded,
    tokens: &[Tok<'_>],
    number: u8,
    index: Option<usize>,
) -> Result<(), AllocError>
    ensures { OnOk result (out.new.items ≡ out.old.items
        ++ rule_facts (seen text.now) (views tokens.now) number index) }
{
    match index {
        Some(index) => {
            let culprit = find_culprit(alloc, tokens, index, number)?;
            push_word_facts(alloc, out, text, tokens, number, index, culprit)
        }
        None => push_flaw_facts(alloc, out, tokens, Flaw::Rule(number), None),
    }
}

/// Appends what more is said of a text that has a flaw, in the item whose first token has this
/// index, or in none.
#[tactic(auto, unfolding(crate::specs::Facts::item_facts))]
pub fn push_item_facts(
    alloc: Global,
    out: &mut Vec<u8>,
    text: &Expanded,
    tokens: &[Tok<'_>],
    flaw: Flaw,
    index: Option<usize>,
) -> Result<(), AllocError>
    ensures { OnOk result (out.new.items ≡ out.old.items
        ++ item_facts (seen text.now) (views tokens.now) flaw index) }
{
    match flaw {
        Flaw::Rule(number) => push_rule_facts(alloc, out, text, tokens, number, index),
        _ => push_flawed_facts(alloc, out, text, tokens, flaw, index),
    }
}
