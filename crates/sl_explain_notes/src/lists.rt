//! Lists that are attached to a field with more values, and are a part of a longer one.

ghost use Rattle.std.specs.Prelude.{◌≡◌, ◌++◌, OnOk, find, option_map};
ghost use Rattle.sl_explain_notes.specs.Lists.{begins_with, behind_fields, has_list, has_part};
ghost use Rattle.sl_explain_notes.specs.Lists.{has_several, is_first, is_listed, is_longer};
ghost use Rattle.sl_explain_notes.specs.Lists.{list_from, list_note, members, note_on_list};
ghost use Rattle.sl_explain_notes.specs.Lists.{short_by, short_lists, up_to_bracket, values};
ghost use Rattle.sl_explain_notes.specs.Lists.{values_of};
ghost use Rattle.sl_explain_notes.specs.Uses.{told_at};
ghost use Rattle.sl_lex.specs.Views.{views};

use crate::notes::{Note, Told};
use sl_explain_heads::{from, text_at};
use sl_explain_names::{
    Mention, definition, has_after, has_before, is, is_attached_role, steps_to, width_at,
};
use sl_lex::Tok;
use std::alloc::AllocError;

// ---- the members of a list

/// Whether the item attaches to several fields.
fn has_several(tokens: &[Tok<'_>], head: usize) -> bool
    ensures { result ≡ has_several (views tokens.now) head }
{
    has_after(tokens, head, 2, b"[")
}

/// What is after the bracket that closes the fields and the next one.
fn behind_fields<'a, 'b>(tokens: &'b [Tok<'a>]) -> &'b [Tok<'a>]
    ensures { views result.now ≡ behind_fields (views tokens.now) }
{
    from(from(tokens, steps_to(b"]", tokens)), 2)
}

/// The tokens from the first member on.
fn list_from<'a, 'b>(tokens: &'b [Tok<'a>], head: usize) -> &'b [Tok<'a>]
    ensures { views result.now ≡ list_from (views tokens.now) head }
{
    if has_several(tokens, head) {
        behind_fields(from(from(tokens, head), 3))
    } else {
        from(from(tokens, head), 4)
    }
}

/// The tokens before a closing bracket.
fn up_to_bracket<'a, 'b>(tokens: &'b [Tok<'a>]) -> &'b [Tok<'a>]
    ensures { views result.now ≡ up_to_bracket (views tokens.now) }
{
    let count = steps_to(b"]", tokens);
    let (front, _) = tokens.split_at(count.min(tokens.len()));
    front
}

/// The members of the list that the item attaches whose first token has this index.
fn members<'a, 'b>(tokens: &'b [Tok<'a>], head: usize) -> &'b [Tok<'a>]
    ensures { views result.now ≡ members (views tokens.now) head }
{
    up_to_bracket(list_from(tokens, head))
}

// ---- parts of lists

/// Whether the list begins with these members.
fn begins_with(list: &[Tok<'_>], part: &[Tok<'_>]) -> bool
    ensures { result ≡ begins_with (views list.now) (views part.now) }
{
    'members: for at in 0..part.len() {
        if !is(text_at(list, at), part[at].text) {
            return false;
        }
    }
    true
}

/// Whether they are in it, one after the other.
fn has_part(list: &[Tok<'_>], part: &[Tok<'_>]) -> bool
    ensures { result ≡ has_part (views list.now) (views part.now) }
{
    'members: for at in 0..list.len() {
        if begins_with(from(list, at), part) {
            return true;
        }
    }
    false
}

// ---- lists that are too short

/// Whether a token is the first field to which an item attaches.
fn is_first(tokens: &[Tok<'_>], index: usize) -> bool
    ensures { result ≡ is_first (views tokens.now) index }
{
    has_before(tokens, index, 2, b"attach") || has_before(tokens, index, 3, b"attach")
}

/// Whether the item attaches registers or names.
fn is_listed(tokens: &[Tok<'_>], head: usize) -> bool
    ensures { result ≡ is_listed (views tokens.now) head }
{
    has_after(tokens, head, 1, b"variables") || has_after(tokens, head, 1, b"names")
}

/// Whether a token is the first field to which registers or names are attached.
fn has_list(tokens: &[Tok<'_>], mention: Mention) -> bool
    ensures { result ≡ has_list (views tokens.now) mention }
{
    is_attached_role(mention.role)
        && is_first(tokens, mention.index)
        && is_listed(tokens, mention.head)
}

/// The values of a field of so many bits, less 1; 0 where there are more than 2^32.
fn values_of(width: u64) -> u64
    ensures { result ≡ values_of width }
{
    if width < 32 { 2 * (1 << width) } else { 0 }
}

/// The values of the field to which a list is attached.
fn values(tokens: &[Tok<'_>], names: &[Mention], mention: Mention) -> u64
    ensures { result ≡ values (views tokens.now) names.now mention }
{
    let name = text_at(tokens, mention.index);
    let definition = definition(tokens, names, mention.head, name);
    values_of(width_at(tokens, definition))
}

/// Whether another list is longer and has these members.
fn is_longer(tokens: &[Tok<'_>], part: &[Tok<'_>], other: Mention) -> bool
    ensures { result ≡ is_longer (views tokens.now) (views part.now) other }
{
    if has_list(tokens, other) {
        let list = members(tokens, other.head);
        part.len() < list.len() && has_part(list, part)
    } else {
        false
    }
}

fn find_longer<'x>(
    tokens: &[Tok<'_>],
    names: &'x [Mention],
    part: &[Tok<'_>],
) -> Option<&'x Mention>
    ensures { option_map (λ m. m.now) result
        ≡ find (is_longer (views tokens.now) (views part.now)) names.now }
{
    names.iter().find(|other| is_longer(tokens, part, **other))
}

/// What is said of a list with so many members, where this one is longer.
fn short_by(members: usize, values: u64, longer: Option<&Mention>) -> Option<Note>
    ensures { result ≡ short_by members values (option_map (λ m. m.now) longer.entry) }
{
    match longer {
        Some(other) => Some(Note::ShortList {
            members,
            values,
            longer: other.head,
        }),
        None => None,
    }
}

/// What is said of a list with these members, attached to a field with so many values.
fn note_on_list(
    tokens: &[Tok<'_>],
    names: &[Mention],
    part: &[Tok<'_>],
    values: u64,
) -> Option<Note>
    ensures { result ≡ note_on_list (views tokens.now) names.now (views part.now) values }
{
    if (part.len() as u64) < values {
        short_by(part.len(), values, find_longer(tokens, names, part))
    } else {
        None
    }
}

/// What is said of a token to which something is attached.
fn list_note(tokens: &[Tok<'_>], names: &[Mention], mention: Mention) -> Option<Note>
    ensures { result ≡ list_note (views tokens.now) names.now mention }
{
    if has_list(tokens, mention) {
        let part = members(tokens, mention.head);
        note_on_list(tokens, names, part, values(tokens, names, mention))
    } else {
        None
    }
}

/// Appends a note on the token of this index, if there is one.
fn push_told(out: &mut Vec<Told>, index: usize, note: Option<Note>) -> Result<(), AllocError>
    ensures { OnOk result (out.new.items ≡ out.old.items ++ told_at index note) }
{
    match note {
        Some(note) => {
            out.push(Told { index, note })?;
            Ok(())
        }
        None => Ok(()),
    }
}

/// Appends the lists that are too short, by their first fields.
pub fn push_short_lists(
    out: &mut Vec<Told>,
    tokens: &[Tok<'_>],
    names: &[Mention],
) -> Result<(), AllocError>
    ensures { OnOk result (out.new.items
        ≡ out.old.items ++ short_lists (views tokens.now) names.now names.now) }
{
    'mentions: for at in 0..names.len() {
        let mention = names[at];
        push_told(out, mention.index, list_note(tokens, names, mention))?;
    }
    Ok(())
}
