//! The constructors of a text by their tokens.

ghost use Rattle.std.specs.Prelude.{◌≡◌, ◌++◌, IfOk, OnOk, option_map};
ghost use Rattle.sl_explain_exports.specs.ConstructorView.{constructor, constructors as constructors_view};
ghost use Rattle.sl_explain_exports.specs.Constructors as spec;
ghost use Rattle.sl_explain_heads.specs.Heads.{name_or, table_at, table_in};
ghost use Rattle.sl_explain_heads.specs.Modes.{mode_view};
ghost use Rattle.sl_lex.specs.Views.{views};

use sl_explain_heads::{Mode, begins_item, from, name_or, next_mode, step_in, table_at, table_in};
use sl_explain_names::is;
use sl_lex::Tok;
use std::alloc::{AllocError, Global};

/// What a constructor exports.
#[derive(Clone, Copy)]
pub enum Export {
    /// What begins with the token of this index.
    At(usize),
    /// Its section has no `export`.
    Nothing,
    /// It is `unimpl`.
    Unimplemented,
}

/// A constructor of a text.
#[derive(Clone, Copy)]
pub struct Constructor<'s> {
    /// The index of its first token.
    pub start: usize,
    pub table: &'s [u8],
    pub exports: Export,
}

// ---- exports

pub fn is_top(mode: Mode) -> bool
    ensures { result ≡ spec.is_top (mode_view mode) }
{
    matches!(mode, Mode::Top)
}

pub fn is_body(mode: Mode) -> bool
    ensures { result ≡ spec.is_body (mode_view mode) }
{
    matches!(mode, Mode::Body)
}

/// Whether a token in this mode is the word `export` of a section.
fn is_export(mode: Mode, text: &[u8]) -> bool
    ensures { result ≡ spec.is_export (mode_view mode) text.now }
{
    is_body(mode) && is(text, b"export")
}

/// Whether a token in this mode is the last one of a constructor.
fn is_last(mode: Mode, text: &[u8]) -> bool
    ensures { result ≡ spec.is_last (mode_view mode) text.now }
{
    !is_top(mode) && is_top(next_mode(mode, text))
}

/// What a constructor without that word exports, whose last token is in this mode.
fn export_at_end(mode: Mode) -> Export
    ensures { result ≡ spec.export_at_end (mode_view mode) }
{
    if is_body(mode) {
        Export::Nothing
    } else {
        Export::Unimplemented
    }
}

/// What the constructor exports whose first token has this index.
pub fn export_of(tokens: &[Tok<'_>], start: usize) -> Export
    ensures { result ≡ spec.export_of (views tokens.now) start }
{
    let mut mode = Mode::Top;
    'tokens: for at in start..tokens.len() {
        let text = tokens[at].text;
        if is_export(mode, text) {
            return Export::At(at + 1);
        }
        if is_last(mode, text) {
            return export_at_end(mode);
        }
        mode = next_mode(mode, text);
    }
    Export::Unimplemented
}

// ---- constructors

/// Whether items that begin with this word are no constructors.
fn is_other(text: &[u8]) -> bool
    ensures { result ≡ spec.is_other text.now }
{
    is(text, b"define")
        || is(text, b"attach")
        || is(text, b"macro")
        || is(text, b"with")
        || is(text, b"}")
}

/// Whether the token of this index, in this mode, begins a constructor.
fn begins(mode: Mode, tokens: &[Tok<'_>], index: usize, text: &[u8]) -> bool
    ensures { result ≡ spec.begins (mode_view mode) (views tokens.now) index text.now }
{
    begins_item(mode, tokens, index) && !is_other(text)
}

/// The name of a table, which is `instruction` where none is written.
pub fn full_name<'a>(table: &'a [u8]) -> &'a [u8]
    ensures { result.now ≡ spec.full_name table.now }
{
    name_or(table, b"instruction")
}

/// The table of a constructor in these blocks.
fn table_by<'s>(tokens: &[Tok<'s>], blocks: &[usize], index: usize) -> &'s [u8]
    ensures { result.now ≡ spec.table_by (views tokens.now) blocks.now index }
{
    let outer = table_in(tokens, blocks);
    full_name(name_or(table_at(from(tokens, index)), outer))
}

/// The constructor in these blocks whose first token has this index.
fn constructor_at<'s>(tokens: &[Tok<'s>], blocks: &[usize], index: usize) -> Constructor<'s>
    ensures { constructor result ≡ spec.constructor_at (views tokens.now) blocks.now index }
{
    Constructor {
        start: index,
        table: table_by(tokens, blocks, index),
        exports: export_of(tokens, index),
    }
}

/// Appends the constructor that the token of this index begins, in this mode, if it does.
fn push_begun<'s>(
    out: &mut Vec<Constructor<'s>>,
    tokens: &[Tok<'s>],
    mode: Mode,
    blocks: &[usize],
    index: usize,
    text: &[u8],
) -> Result<(), AllocError>
    ensures { OnOk result (constructors_view out.new.items ≡ constructors_view out.old.items
        ++ spec.begun (views tokens.now) (mode_view mode) blocks.now index text.now) }
{
    if begins(mode, tokens, index, text) {
        out.push(constructor_at(tokens, blocks, index))?;
    }
    Ok(())
}

/// The constructors of a text, in its order.
pub fn constructors<'s>(
    alloc: Global,
    tokens: &[Tok<'s>],
) -> Result<Vec<Constructor<'s>>, AllocError>
    ensures { IfOk result (λ all.
        constructors_view all.items ≡ spec.constructors (views tokens.now)) }
{
    let mut out = Vec::new(alloc);
    let mut blocks = Vec::new(alloc);
    let mut mode = Mode::Top;
    'tokens: for at in 0..tokens.len() {
        let text = tokens[at].text;
        push_begun(&mut out, tokens, mode, blocks.as_slice(), at, text)?;
        step_in(mode, &mut blocks, at, text)?;
        mode = next_mode(mode, text);
    }
    Ok(out)
}

// ---- those of a table

fn does_export(export: Export) -> bool
    ensures { result ≡ spec.does_export export }
{
    matches!(export, Export::At(_))
}

fn is_nothing(export: Export) -> bool
    ensures { result ≡ spec.is_nothing export }
{
    matches!(export, Export::Nothing)
}

fn is_exporter(table: &[u8], of: &Constructor<'_>) -> bool
    ensures { result ≡ spec.is_exporter table.now (constructor of.now) }
{
    is(of.table, table) && does_export(of.exports)
}

fn is_silent(table: &[u8], of: &Constructor<'_>) -> bool
    ensures { result ≡ spec.is_silent table.now (constructor of.now) }
{
    is(of.table, table) && is_nothing(of.exports)
}

/// The first constructor of a table that exports.
pub fn first_exporter<'s>(table: &[u8], all: &[Constructor<'s>]) -> Option<Constructor<'s>>
    ensures { option_map constructor result
        ≡ spec.first_exporter table.now (constructors_view all.now) }
{
    'all: for at in 0..all.len() {
        let of = all[at];
        if is_exporter(table, &of) {
            return Some(of);
        }
    }
    None
}

/// The first constructor of a table that exports nothing and isn't `unimpl`.
pub fn first_silent<'s>(table: &[u8], all: &[Constructor<'s>]) -> Option<Constructor<'s>>
    ensures { option_map constructor result
        ≡ spec.first_silent table.now (constructors_view all.now) }
{
    'all: for at in 0..all.len() {
        let of = all[at];
        if is_silent(table, &of) {
            return Some(of);
        }
    }
    None
}
