//! The tokens of an item, each with the part of the item in which it is.

ghost use Rattle.std.specs.Prelude.{◌≡◌, ◌++◌, IfOk, OnOk};
ghost use Rattle.sl_explain_heads.specs.Words.{is_blank};
ghost use Rattle.sl_explain_names.specs.Places.{after_begin, after_brace, after_colon};
ghost use Rattle.sl_explain_names.specs.Places.{after_leading, after_mnemonic, after_pattern};
ghost use Rattle.sl_explain_names.specs.Places.{is_done, next_part, places_from, places_of};
ghost use Rattle.sl_explain_names.specs.Places.{places_of_blocks, up_to};
ghost use Rattle.sl_lex.specs.Views.{view, views};

use crate::tokens::{is, is_caret};
use sl_lex::{Tok, TokKind};
use std::alloc::{AllocError, Global};

/// What an item is, as far as its parts differ: a constructor of `instruction`, whose display begins
/// with a mnemonic, the head of a block, or another item.
#[derive(Clone, Copy)]
pub enum Form {
    Root,
    Table,
    Block,
}

/// A part of an item. Marks between two parts belong to the one before them.
#[derive(Clone, Copy)]
pub enum Part {
    /// Up to the colon of a constructor or a block, or the first word of another item.
    Begin,
    /// The blanks before a mnemonic, and its first piece.
    Leading,
    Mnemonic,
    Display,
    Pattern,
    Actions,
    /// A macro's name and its parameters.
    Parameters,
    Section,
    /// An item that begins with `define` or `attach`, from its second word on.
    Definition,
    /// After the item.
    Done,
}

/// A token by its index, and the part in which it is.
#[derive(Clone, Copy)]
pub struct Place {
    pub index: usize,
    pub part: Part,
}

fn is_blank(kind: TokKind) -> bool
    ensures { result ≡ is_blank kind }
{
    matches!(kind, TokKind::Blank)
}

/// The part after the colon.
fn after_colon(form: Form) -> Part
    ensures { result ≡ after_colon form }
{
    match form {
        Form::Root => Part::Leading,
        Form::Table => Part::Display,
        Form::Block => Part::Pattern,
    }
}

/// The part after a token with these bytes before the colon.
fn after_begin(form: Form, text: &[u8]) -> Part
    ensures { result ≡ after_begin form text.now }
{
    if is(text, b":") {
        after_colon(form)
    } else if is(text, b"macro") {
        Part::Parameters
    } else if is(text, b"define") || is(text, b"attach") {
        Part::Definition
    } else {
        Part::Begin
    }
}

/// The part after a token where no piece of a mnemonic is before it.
fn after_leading(token: &Tok<'_>) -> Part
    ensures { result ≡ after_leading (view token.now) }
{
    if is(token.text, b"is") {
        Part::Pattern
    } else if is_blank(token.kind) {
        Part::Leading
    } else if is_caret(token.kind) {
        Part::Display
    } else {
        Part::Mnemonic
    }
}

/// The part after a token of a mnemonic or after one.
fn after_mnemonic(token: &Tok<'_>) -> Part
    ensures { result ≡ after_mnemonic (view token.now) }
{
    if is(token.text, b"is") {
        Part::Pattern
    } else if is_blank(token.kind) || is_caret(token.kind) {
        Part::Display
    } else {
        Part::Mnemonic
    }
}

/// The part after the brace that a pattern is before.
fn after_brace(form: Form) -> Part
    ensures { result ≡ after_brace form }
{
    match form {
        Form::Root => Part::Section,
        Form::Table => Part::Section,
        Form::Block => Part::Done,
    }
}

/// The part after a token of a pattern or after one.
fn after_pattern(form: Form, text: &[u8]) -> Part
    ensures { result ≡ after_pattern form text.now }
{
    if is(text, b"[") {
        Part::Actions
    } else if is(text, b"{") {
        after_brace(form)
    } else if is(text, b"unimpl") {
        Part::Done
    } else {
        Part::Pattern
    }
}

/// Another part after this word or mark, else the same.
fn up_to(last: &[u8], before: Part, after: Part, text: &[u8]) -> Part
    ensures { result ≡ up_to last.now before after text.now }
{
    if is(text, last) { after } else { before }
}

/// The part of the token after one of this part.
fn next_part(form: Form, part: Part, token: &Tok<'_>) -> Part
    ensures { result ≡ next_part form part (view token.now) }
{
    match part {
        Part::Begin => after_begin(form, token.text),
        Part::Leading => after_leading(token),
        Part::Mnemonic => after_mnemonic(token),
        Part::Display => up_to(b"is", Part::Display, Part::Pattern, token.text),
        Part::Pattern => after_pattern(form, token.text),
        Part::Actions => up_to(b"]", Part::Actions, Part::Pattern, token.text),
        Part::Parameters => up_to(b"{", Part::Parameters, Part::Section, token.text),
        Part::Section => up_to(b"}", Part::Section, Part::Done, token.text),
        Part::Definition => up_to(b";", Part::Definition, Part::Done, token.text),
        Part::Done => Part::Done,
    }
}

fn is_done(part: Part) -> bool
    ensures { result ≡ is_done part }
{
    matches!(part, Part::Done)
}

/// Appends the tokens of an item, or of a block's head, from this index on up to its end.
fn push_places(
    out: &mut Vec<Place>,
    tokens: &[Tok<'_>],
    form: Form,
    index: usize,
) -> Result<(), AllocError>
    ensures { OnOk result (out.new.items ≡ out.old.items ++ places_from form Part.Begin index
        (Rattle.std.specs.Prelude.drop index (views tokens.now))) }
{
    let mut part = Part::Begin;
    'tokens: for at in index..tokens.len() {
        if is_done(part) {
            return Ok(());
        }
        out.push(Place { index: at, part })?;
        part = next_part(form, part, &tokens[at]);
    }
    Ok(())
}

/// The tokens of an item, those of the heads of the blocks round it first.
pub fn places_of(
    alloc: Global,
    tokens: &[Tok<'_>],
    form: Form,
    blocks: &[usize],
    index: usize,
) -> Result<Vec<Place>, AllocError>
    ensures { IfOk result (λ places.
        places.items ≡ places_of form (views tokens.now) blocks.now index) }
{
    let mut out = Vec::new(alloc);
    'each: for block in blocks {
        push_places(&mut out, tokens, Form::Block, *block)?;
    }
    push_places(&mut out, tokens, form, index)?;
    Ok(out)
}
