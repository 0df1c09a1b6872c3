//! How an item is told: a constructor by its table, its display and its pattern, a macro by its
//! name.

ghost use Rattle.std.specs.Prelude.{[], ◌≡◌, ◌++◌, IfOk, OnOk};
ghost use Rattle.std.specs.Str.{bytes_eq};
ghost use Rattle.sl_explain_heads.specs.Heads.{behind_colon, block_at, block_pattern_at, both};
ghost use Rattle.sl_explain_heads.specs.Heads.{constructor_words};
ghost use Rattle.sl_explain_heads.specs.Heads.{display_at, display_part, ends_display, ends_pattern};
ghost use Rattle.sl_explain_heads.specs.Heads.{head_line, kind_of, macro_words, name_or, own_pattern_at};
ghost use Rattle.sl_explain_heads.specs.Heads.{pattern_by, pattern_line, pattern_part, pattern_words};
ghost use Rattle.sl_explain_heads.specs.Heads.{table_at, table_in, table_of, table_words};
ghost use Rattle.sl_explain_heads.specs.Kinds.{kind_view};
ghost use Rattle.sl_explain_heads.specs.Words.{blocks_round, joined};
ghost use Rattle.sl_lex.specs.Views.{views};

use crate::words::{blocks_round, joined, text_at};
use sl_explain_lines::{push_fact, push_up_to};
use sl_lex::Tok;
use std::alloc::{AllocError, Global};

// ---- the parts of a constructor and of a block

/// Whether the bytes are those of the word.
pub fn is(text: &[u8], word: &[u8]) -> bool
    ensures { result ≡ bytes_eq text.now word.now }
{
    text == word
}

fn ends_display(text: &[u8]) -> bool
    ensures { result ≡ ends_display text.now }
{
    is(text, b"is")
}

fn ends_pattern(text: &[u8]) -> bool
    ensures { result ≡ ends_pattern text.now }
{
    is(text, b"[") || is(text, b"{") || is(text, b"unimpl")
}

/// The tokens from this index on.
pub fn from<'a, 'b>(tokens: &'b [Tok<'a>], index: usize) -> &'b [Tok<'a>]
    ensures { views result.now ≡ Rattle.std.specs.Prelude.drop index (views tokens.now) }
{
    let (_, rest) = tokens.split_at(index.min(tokens.len()));
    rest
}

/// The tokens before the word that ends a display.
fn display_part<'a, 'b>(tokens: &'b [Tok<'a>]) -> &'b [Tok<'a>]
    ensures { views result.now ≡ display_part (views tokens.now) }
{
    'tokens: for index in 0..tokens.len() {
        if ends_display(tokens[index].text) {
            let (part, _) = tokens.split_at(index);
            return part;
        }
    }
    tokens
}

/// The tokens before the one that ends a pattern.
fn pattern_part<'a, 'b>(tokens: &'b [Tok<'a>]) -> &'b [Tok<'a>]
    ensures { views result.now ≡ pattern_part (views tokens.now) }
{
    'tokens: for index in 0..tokens.len() {
        if ends_pattern(tokens[index].text) {
            let (part, _) = tokens.split_at(index);
            return part;
        }
    }
    tokens
}

/// The table that is named before the colon with which the tokens go on, or no name.
pub fn table_at<'a>(tokens: &[Tok<'a>]) -> &'a [u8]
    ensures { result.now ≡ table_at (views tokens.now) }
{
    match text_at(tokens, 0) {
        b":" => b"",
        text => text,
    }
}

/// The tokens after that colon.
fn behind_colon<'a, 'b>(tokens: &'b [Tok<'a>]) -> &'b [Tok<'a>]
    ensures { views result.now ≡ behind_colon (views tokens.now) }
{
    match text_at(tokens, 0) {
        b":" => from(tokens, 1),
        _ => from(tokens, 2),
    }
}

/// The display of the constructor with which the tokens begin.
fn display_at<'a, 'b>(tokens: &'b [Tok<'a>]) -> &'b [Tok<'a>]
    ensures { views result.now ≡ display_at (views tokens.now) }
{
    display_part(behind_colon(tokens))
}

/// Its own pattern.
fn own_pattern_at<'a, 'b>(tokens: &'b [Tok<'a>]) -> &'b [Tok<'a>]
    ensures { views result.now ≡ own_pattern_at (views tokens.now) }
{
    let display = display_at(tokens).len();
    pattern_part(from(behind_colon(tokens), display + 1))
}

/// The tokens after the word `with` of the block whose first token has this index.
fn block_at<'a, 'b>(tokens: &'b [Tok<'a>], index: usize) -> &'b [Tok<'a>]
    ensures { views result.now ≡ block_at (views tokens.now) index }
{
    from(from(tokens, index), 1)
}

/// The pattern of that block.
fn block_pattern_at<'a, 'b>(tokens: &'b [Tok<'a>], index: usize) -> &'b [Tok<'a>]
    ensures { views result.now ≡ block_pattern_at (views tokens.now) index }
{
    pattern_part(behind_colon(block_at(tokens, index)))
}

// ---- words

/// A name, or where it is empty another one.
pub fn name_or<'a>(name: &'a [u8], other: &'a [u8]) -> &'a [u8]
    ensures { result.now ≡ name_or name.now other.now }
{
    if name.is_empty() { other } else { name }
}

/// The table of the innermost of these blocks that names one, or no name.
pub fn table_in<'a>(tokens: &[Tok<'a>], blocks: &[usize]) -> &'a [u8]
    ensures { result.now ≡ table_in (views tokens.now) [] blocks.now }
{
    let mut table: &'a [u8] = b"";
    'each: for block in blocks {
        table = name_or(table_at(block_at(tokens, *block)), table);
    }
    table
}

/// Appends the name of a table and what stands behind it.
fn push_table(out: &mut Vec<u8>, table: &[u8]) -> Result<(), AllocError>
    ensures { OnOk result (out.new.items ≡ out.old.items ++ table_words table.now) }
{
    if is(table, b"") || is(table, b"instruction") {
        out.extend_from_slice(b":")
    } else {
        push_up_to(out, 40, table)?;
        out.extend_from_slice(b": ")
    }
}

/// A block's pattern and what is inside it, or this alone where the block has none.
fn both(alloc: Global, block: &[u8], inside: Vec<u8>) -> Result<Vec<u8>, AllocError>
    ensures { IfOk result (λ words. words.items ≡ both block.now inside.items) }
{
    if block.is_empty() {
        return Ok(inside);
    }
    let mut out = Vec::new(alloc);
    out.extend_from_slice(b"(")?;
    out.extend_from_slice(block)?;
    out.extend_from_slice(b") & (")?;
    out.extend_from_slice(inside.as_slice())?;
    out.extend_from_slice(b")")?;
    Ok(out)
}

/// The pattern of a constructor as it is judged, those of the blocks round it before its own.
fn pattern_words(
    alloc: Global,
    tokens: &[Tok<'_>],
    blocks: &[usize],
    index: usize,
) -> Result<Vec<u8>, AllocError>
    ensures { IfOk result (λ words.
        words.items ≡ pattern_words (views tokens.now) blocks.now index) }
{
    match blocks {
        [] => joined(alloc, own_pattern_at(from(tokens, index))),
        [block, rest @ ..] => {
            let outer = joined(alloc, block_pattern_at(tokens, *block))?;
            let inside = pattern_words(alloc, tokens, rest, index)?;
            both(alloc, outer.as_slice(), inside)
        }
    }
}

/// The table of the constructor whose first token has this index, or no name where neither it nor a
/// block round it names one.
pub fn table_of<'a>(alloc: Global, tokens: &[Tok<'a>], index: usize) -> Result<&'a [u8], AllocError>
    ensures { IfOk result (λ table. table.now ≡ table_of (views tokens.now) index) }
{
    let blocks = blocks_round(alloc, tokens, index)?;
    let outer = table_in(tokens, blocks.as_slice());
    Ok(name_or(table_at(from(tokens, index)), outer))
}

/// The words of a constructor: its table and its display.
pub fn constructor_words(
    alloc: Global,
    tokens: &[Tok<'_>],
    index: usize,
) -> Result<Vec<u8>, AllocError>
    ensures { IfOk result (λ words. words.items ≡ constructor_words (views tokens.now) index) }
{
    let table = table_of(alloc, tokens, index)?;
    let display = joined(alloc, display_at(from(tokens, index)))?;
    let mut words = Vec::new(alloc);
    push_table(&mut words, table)?;
    push_up_to(&mut words, 80, display.as_slice())?;
    Ok(words)
}

// ---- lines

/// What an item is.
#[derive(Clone, Copy, Debug, PartialEq, Eq)]
enum Kind {
    Constructor,
    Macro,
    Other,
}

/// What begins with these bytes.
fn kind_of(text: &[u8]) -> Kind
    ensures { kind_view result ≡ kind_of text.now }
{
    if is(text, b"macro") {
        Kind::Macro
    } else if is(text, b"define") || is(text, b"attach") || is(text, b"with") || is(text, b"") {
        Kind::Other
    } else {
        Kind::Constructor
    }
}

/// The words of the macro whose first token has this index: its name.
fn macro_words(alloc: Global, tokens: &[Tok<'_>], index: usize) -> Result<Vec<u8>, AllocError>
    ensures { IfOk result (λ words. words.items ≡ macro_words (views tokens.now) index) }
{
    let mut words = Vec::new(alloc);
    words.extend_from_slice(b"macro ")?;
    push_up_to(&mut words, 40, text_at(from(tokens, index), 1))?;
    Ok(words)
}

/// Appends in which constructor or macro: the item whose first token has this index.
pub fn push_head(
    alloc: Global,
    out: &mut Vec<u8>,
    tokens: &[Tok<'_>],
    index: usize,
) -> Result<(), AllocError>
    ensures { OnOk result (out.new.items ≡ out.old.items ++ head_line (views tokens.now) index) }
{
    match kind_of(text_at(from(tokens, index), 0)) {
        Kind::Constructor => {
            let words = constructor_words(alloc, tokens, index)?;
            push_fact(out, b"  in    ", words.as_slice())
        }
        Kind::Macro => {
            let words = macro_words(alloc, tokens, index)?;
            push_fact(out, b"  in    ", words.as_slice())
        }
        Kind::Other => Ok(()),
    }
}

/// Appends the pattern of the constructor whose first token has this index.
fn push_whole_pattern(
    alloc: Global,
    out: &mut Vec<u8>,
    tokens: &[Tok<'_>],
    index: usize,
) -> Result<(), AllocError>
    ensures { OnOk result (out.new.items ≡ out.old.items
        ++ pattern_by Rattle.sl_explain_heads.specs.Heads.Kind.constructor (views tokens.now) index) }
{
    let blocks = blocks_round(alloc, tokens, index)?;
    let pattern = pattern_words(alloc, tokens, blocks.as_slice(), index)?;
    let mut words = Vec::new(alloc);
    push_up_to(&mut words, 90, pattern.as_slice())?;
    push_fact(out, b"  is    ", words.as_slice())
}

/// Appends the pattern of the item whose first token has this index, if it is a constructor.
pub fn push_pattern(
    alloc: Global,
    out: &mut Vec<u8>,
    tokens: &[Tok<'_>],
    index: usize,
) -> Result<(), AllocError>
    ensures { OnOk result (out.new.items
        ≡ out.old.items ++ pattern_line (views tokens.now) index) }
{
    match kind_of(text_at(from(tokens, index), 0)) {
        Kind::Constructor => push_whole_pattern(alloc, out, tokens, index),
        _ => Ok(()),
    }
}
