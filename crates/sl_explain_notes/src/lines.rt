//! The lines of the notes on a text.

ghost use Rattle.std.specs.Prelude.{◌≡◌, ◌++◌, IfOk, OnOk, filter};
ghost use Rattle.std.specs.Fmt.{decimal};
ghost use Rattle.sl_explain_notes.specs.Lines as spec;
ghost use Rattle.sl_lex.specs.Views.{views};
ghost use Rattle.sl_preproc.specs.Expanded.{seen};

use crate::notes::{Note, Told, notes};
use itoa::Buffer;
use sl_explain_heads::text_at;
use sl_explain_lines::push_up_to;
use sl_explain_places::push_token_place;
use sl_lex::Tok;
use sl_preproc::Expanded;
use std::alloc::{AllocError, Global};

/// What notes are told of.
#[derive(Clone, Copy)]
pub enum Subject {
    Table,
    Field,
    Macro,
    Operation,
    List,
    Local,
}

// ---- words

fn push_number(out: &mut Vec<u8>, number: u64) -> Result<(), AllocError>
    ensures { OnOk result (out.new.items
        ≡ out.old.items ++ decimal number) }
{
    let mut buffer = Buffer::new();
    out.extend_from_slice(buffer.format(number).as_bytes())
}

/// Appends the token of this index.
fn push_name(out: &mut Vec<u8>, tokens: &[Tok<'_>], index: usize) -> Result<(), AllocError>
    ensures { OnOk result (out.new.items
        ≡ out.old.items ++ spec.name_words (views tokens.now) index) }
{
    push_up_to(out, 40, text_at(tokens, index))
}

/// What is said of a name after it, where it is one phrase.
fn phrase(note: Note) -> &'static [u8]
    ensures { result.now ≡ spec.phrase note }
{
    match note {
        Note::UnusedField => b" is attached, and no pattern and no action has it",
        Note::UncalledMacro => b" is a macro that nothing calls",
        Note::UncalledOperation => b" is a user operation that nothing calls",
        Note::NeverRead => b" is a local that is never read",
        _ => b"",
    }
}

#[tactic(auto, unfolding(crate::specs::Lines::has_words))]
fn push_has(out: &mut Vec<u8>, values: u64) -> Result<(), AllocError>
    ensures { OnOk result (out.new.items ≡ out.old.items ++ spec.has_words values) }
{
    out.extend_from_slice(b" has ")?;
    push_number(out, values)
}

fn push_values(out: &mut Vec<u8>, values: u64) -> Result<(), AllocError>
    ensures { OnOk result (out.new.items ≡ out.old.items ++ spec.values_words values) }
{
    push_has(out, values)?;
    out.extend_from_slice(b" values and ")
}

#[tactic(auto, unfolding(crate::specs::Lines::members_words))]
fn push_members(out: &mut Vec<u8>, members: usize) -> Result<(), AllocError>
    ensures { OnOk result (out.new.items ≡ out.old.items ++ spec.members_words members) }
{
    push_number(out, members as u64)?;
    out.extend_from_slice(b" members, which stand in the list of ")
}

fn push_list(out: &mut Vec<u8>, members: usize, values: u64) -> Result<(), AllocError>
    ensures { OnOk result (out.new.items ≡ out.old.items ++ spec.list_words members values) }
{
    push_values(out, values)?;
    push_members(out, members)
}

/// Appends what is said of a name after it.
fn push_said(
    out: &mut Vec<u8>,
    text: &Expanded,
    tokens: &[Tok<'_>],
    note: Note,
) -> Result<(), AllocError>
    ensures { OnOk result (out.new.items
        ≡ out.old.items ++ spec.said (seen text.now) (views tokens.now) note) }
{
    match note {
        Note::ShortList {
            members,
            values,
            longer,
        } => {
            push_list(out, members, values)?;
            push_token_place(out, text, tokens, longer)
        }
        _ => out.extend_from_slice(phrase(note)),
    }
}

/// Appends a note with the place and the name of its token.
fn push_named(
    out: &mut Vec<u8>,
    text: &Expanded,
    tokens: &[Tok<'_>],
    told: Told,
) -> Result<(), AllocError>
    ensures { OnOk result (out.new.items
        ≡ out.old.items ++ spec.named_words (seen text.now) (views tokens.now) told) }
{
    push_token_place(out, text, tokens, told.index)?;
    out.extend_from_slice(b" ")?;
    push_name(out, tokens, told.index)?;
    push_said(out, text, tokens, told.note)
}

/// Appends a table that is in no pattern.
fn push_idle(
    out: &mut Vec<u8>,
    text: &Expanded,
    tokens: &[Tok<'_>],
    index: usize,
) -> Result<(), AllocError>
    ensures { OnOk result (out.new.items
        ≡ out.old.items ++ spec.idle_words (seen text.now) (views tokens.now) index) }
{
    push_name(out, tokens, index)?;
    out.extend_from_slice(b" ")?;
    push_token_place(out, text, tokens, index)
}

/// Appends the line of a note.
fn push_note(
    out: &mut Vec<u8>,
    text: &Expanded,
    tokens: &[Tok<'_>],
    told: Told,
) -> Result<(), AllocError>
    ensures { OnOk result (out.new.items ≡ out.old.items
        ++ spec.note_line (seen text.now) (views tokens.now) told told.note) }
{
    match told.note {
        Note::IdleTable => {
            out.extend_from_slice(b"  idle  ")?;
            push_idle(out, text, tokens, told.index)?;
        }
        _ => {
            out.extend_from_slice(b"  note  ")?;
            push_named(out, text, tokens, told)?;
        }
    }
    out.extend_from_slice(b"\n")
}

// ---- lines

/// Whether a note is on this subject.
fn is_on(subject: Subject, note: Note) -> bool
    ensures { result ≡ spec.is_on subject note }
{
    match (subject, note) {
        (Subject::Table, Note::IdleTable) => true,
        (Subject::Field, Note::UnusedField) => true,
        (Subject::Macro, Note::UncalledMacro) => true,
        (Subject::Operation, Note::UncalledOperation) => true,
        (Subject::List, Note::ShortList { .. }) => true,
        (Subject::Local, Note::NeverRead) => true,
        _ => false,
    }
}

/// The notes on this subject.
fn told_of(alloc: Global, told: &[Told], subject: Subject) -> Result<Vec<Told>, AllocError>
    ensures { IfOk result (λ chosen. chosen.items ≡ filter (spec.is_told_of subject) told.now) }
{
    let mut chosen = Vec::new(alloc);
    'told: for at in 0..told.len() {
        if is_on(subject, told[at].note) {
            chosen.push(told[at])?;
        }
    }
    Ok(chosen)
}

/// Appends the lines of these notes.
fn push_all(
    out: &mut Vec<u8>,
    text: &Expanded,
    tokens: &[Tok<'_>],
    told: &[Told],
) -> Result<(), AllocError>
    ensures { OnOk result (out.new.items ≡ out.old.items
        ++ spec.all_lines (seen text.now) (views tokens.now) told.now) }
{
    'told: for at in 0..told.len() {
        push_note(out, text, tokens, told[at])?;
    }
    Ok(())
}

fn label(subject: Subject) -> &'static [u8]
    ensures { result.now ≡ spec.label subject }
{
    match subject {
        Subject::Table => b"  idle  ",
        _ => b"  note  ",
    }
}

/// How many notes on a subject have lines.
const MOST: usize = 10;

/// Appends how many notes there are besides those with lines.
#[tactic(auto, unfolding(crate::specs::Lines::more_words))]
fn push_more(out: &mut Vec<u8>, subject: Subject, count: usize) -> Result<(), AllocError>
    ensures { OnOk result (out.new.items ≡ out.old.items ++ spec.more_line subject count) }
{
    if MOST < count {
        out.extend_from_slice(label(subject))?;
        push_number(out, (count - MOST) as u64)?;
        out.extend_from_slice(b" more")?;
        out.extend_from_slice(b"\n")
    } else {
        Ok(())
    }
}

/// Appends the lines of these notes, which are all on this subject.
fn push_some(
    out: &mut Vec<u8>,
    text: &Expanded,
    tokens: &[Tok<'_>],
    subject: Subject,
    told: &[Told],
) -> Result<(), AllocError>
    ensures { OnOk result (out.new.items ≡ out.old.items
        ++ spec.lines_by (seen text.now) (views tokens.now) subject told.now) }
{
    let (first, _) = told.split_at(MOST.min(told.len()));
    push_all(out, text, tokens, first)?;
    push_more(out, subject, told.len())
}

/// Appends the lines of the notes on a subject.
#[tactic(auto, unfolding(crate::specs::Lines::lines_on))]
fn push_on(
    alloc: Global,
    out: &mut Vec<u8>,
    text: &Expanded,
    tokens: &[Tok<'_>],
    told: &[Told],
    subject: Subject,
) -> Result<(), AllocError>
    ensures { OnOk result (out.new.items ≡ out.old.items
        ++ spec.lines_on (seen text.now) (views tokens.now) told.now subject) }
{
    let chosen = told_of(alloc, told, subject)?;
    push_some(out, text, tokens, subject, chosen.as_slice())
}

/// Appends the lines of the notes on a text.
#[tactic(auto, unfolding(crate::specs::Lines::note_lines))]
pub fn push_notes(
    alloc: Global,
    out: &mut Vec<u8>,
    text: &Expanded,
    tokens: &[Tok<'_>],
) -> Result<(), AllocError>
    ensures { OnOk result (out.new.items
        ≡ out.old.items ++ spec.note_lines (seen text.now) (views tokens.now)) }
{
    let told = notes(alloc, tokens)?;
    let told = told.as_slice();
    push_on(alloc, out, text, tokens, told, Subject::Table)?;
    push_on(alloc, out, text, tokens, told, Subject::Field)?;
    push_on(alloc, out, text, tokens, told, Subject::Macro)?;
    push_on(alloc, out, text, tokens, told, Subject::Operation)?;
    push_on(alloc, out, text, tokens, told, Subject::List)?;
    push_on(alloc, out, text, tokens, told, Subject::Local)
}
