//! The names that a text uses, and those that it defines or attaches something to, and doesn't use.

ghost use Rattle.std.specs.Prelude.{◌≡◌, ◌++◌, IfOk, OnOk};
ghost use Rattle.sl_explain_heads.specs.Modes.{mode_view};
ghost use Rattle.sl_explain_heads.specs.Words.{text_at};
ghost use Rattle.sl_explain_notes.specs.Uses.{defined_note, first_used, is_call, is_used_in, note_on};
ghost use Rattle.sl_explain_notes.specs.Uses.{told_at, unused, unused_note, used, uses, with_name};
ghost use Rattle.sl_explain_notes.specs.Uses.{with_told, with_used};
ghost use Rattle.sl_lex.specs.Views.{views};

use crate::notes::{Note, Told};
use sl_base_names::NameIndex;
use sl_explain_heads::{Mode, next_mode, text_at};
use sl_explain_names::{Kind, Mention, Role, has_after, has_before, is_word_at};
use sl_lex::Tok;
use std::alloc::{AllocError, Global};

// ---- the names that are used

/// Whether a token of a section is called.
fn is_call(tokens: &[Tok<'_>], index: usize) -> bool
    ensures { result ≡ is_call (views tokens.now) index }
{
    has_after(tokens, index, 1, b"(") && !has_before(tokens, index, 1, b"macro")
}

/// Whether a token in this mode is used as a name.
fn is_used_in(mode: Mode, tokens: &[Tok<'_>], index: usize) -> bool
    ensures { result ≡ is_used_in (mode_view mode) (views tokens.now) index }
{
    match mode {
        Mode::Pattern => true,
        Mode::Head => !has_before(tokens, index, 1, b"with"),
        Mode::Body => is_call(tokens, index),
        Mode::Top | Mode::Plain | Mode::Display => false,
    }
}

fn uses(mode: Mode, tokens: &[Tok<'_>], index: usize) -> bool
    ensures { result ≡ uses (mode_view mode) (views tokens.now) index }
{
    is_word_at(tokens, index) && is_used_in(mode, tokens, index)
}

/// Adds a name that may be there.
fn put_name<'s>(names: &mut NameIndex<'s>, name: &'s [u8]) -> Result<(), AllocError>
    ensures { OnOk result (names.new ≡ with_name names.old name.now) }
{
    if names.has(name) {
        Ok(())
    } else {
        names.add(name)
    }
}

/// Adds the name of a token in this mode that uses it.
fn put_used<'s>(
    names: &mut NameIndex<'s>,
    mode: Mode,
    tokens: &[Tok<'s>],
    index: usize,
) -> Result<(), AllocError>
    ensures { OnOk result (names.new
        ≡ with_used (mode_view mode) (views tokens.now) index names.old) }
{
    if uses(mode, tokens, index) {
        put_name(names, text_at(tokens, index))
    } else {
        Ok(())
    }
}

/// The name that is used by whoever reads a text.
fn first_used<'s>(alloc: Global) -> Result<NameIndex<'s>, AllocError>
    ensures { IfOk result (λ names. names ≡ first_used) }
{
    let mut names = NameIndex::new(alloc);
    names.add(b"instruction")?;
    Ok(names)
}

/// The names that a text uses.
fn used<'s>(alloc: Global, tokens: &[Tok<'s>]) -> Result<NameIndex<'s>, AllocError>
    ensures { IfOk result (λ names. names ≡ used (views tokens.now)) }
{
    let mut names = first_used(alloc)?;
    let mut mode = Mode::Top;
    'tokens: for at in 0..tokens.len() {
        put_used(&mut names, mode, tokens, at)?;
        mode = next_mode(mode, tokens[at].text);
    }
    Ok(names)
}

// ---- those that nothing uses

/// What is said of a name of this kind that is defined and not used.
fn defined_note(kind: Kind) -> Option<Note>
    ensures { result ≡ defined_note kind }
{
    match kind {
        Kind::Table => Some(Note::IdleTable),
        Kind::Macro => Some(Note::UncalledMacro),
        Kind::UserOperation => Some(Note::UncalledOperation),
        _ => None,
    }
}

/// What is said of a token of which this is said, where its name isn't used.
fn unused_note(role: Role) -> Option<Note>
    ensures { result ≡ unused_note role }
{
    match role {
        Role::Defines(kind) => defined_note(kind),
        Role::Attached | Role::AttachedToRegisters => Some(Note::UnusedField),
        Role::Context | Role::Default | Role::Alignment => None,
    }
}

/// What is said of a token, where these names are used.
fn note_on(tokens: &[Tok<'_>], names: &NameIndex<'_>, mention: Mention) -> Option<Note>
    ensures { result ≡ note_on (views tokens.now) names.now mention }
{
    if names.has(text_at(tokens, mention.index)) {
        None
    } else {
        unused_note(mention.role)
    }
}

/// Appends what is said of a token, and adds the name that was told.
fn push_note_on<'s>(
    out: &mut Vec<Told>,
    names: &mut NameIndex<'s>,
    tokens: &[Tok<'s>],
    mention: Mention,
) -> Result<(), AllocError>
    ensures told { OnOk result (out.new.items ≡ out.old.items
        ++ told_at mention.index (note_on (views tokens.now) names.old mention)) }
    ensures names { OnOk result (names.new
        ≡ with_told names.old (text_at (views tokens.now) mention.index)
        (note_on (views tokens.now) names.old mention)) }
{
    let index = mention.index;
    match note_on(tokens, names, mention) {
        Some(note) => {
            out.push(Told { index, note })?;
            names.add(text_at(tokens, index))
        }
        None => Ok(()),
    }
}

/// Appends the names that the text defines, or to which it attaches something, and doesn't use, by
/// the first tokens that do.
pub fn push_unused(
    alloc: Global,
    out: &mut Vec<Told>,
    tokens: &[Tok<'_>],
    mentions: &[Mention],
) -> Result<(), AllocError>
    ensures { OnOk result (out.new.items
        ≡ out.old.items ++ unused (views tokens.now) mentions.now) }
{
    let mut names = used(alloc, tokens)?;
    'mentions: for at in 0..mentions.len() {
        push_note_on(out, &mut names, tokens, mentions[at])?;
    }
    Ok(())
}
