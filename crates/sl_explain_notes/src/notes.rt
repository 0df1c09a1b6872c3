//! The notes of a text.

ghost use Rattle.std.specs.Prelude.{◌≡◌, IfOk};
ghost use Rattle.sl_explain_notes.specs.Notes.{notes};
ghost use Rattle.sl_lex.specs.Views.{views};

use crate::lists::push_short_lists;
use crate::locals::push_locals;
use crate::uses::push_unused;
use sl_explain_names::mentions;
use sl_lex::Tok;
use std::alloc::{AllocError, Global};

/// What a note says of a token.
#[derive(Clone, Copy)]
pub enum Note {
    /// It is the name of a table that is in no pattern.
    IdleTable,
    /// Something is attached to the field, which is in no pattern and no action.
    UnusedField,
    /// It is the name of a macro that no section calls.
    UncalledMacro,
    /// It is the name of a user operation that no section calls.
    UncalledOperation,
    /// It is the name of a local that its section doesn't read.
    NeverRead,
    /// So many members are attached to the field, which has so many values; they are a part of
    /// those that the item attaches whose first token has this index.
    ShortList {
        members: usize,
        values: u64,
        longer: usize,
    },
}

/// A note on the token of this index.
#[derive(Clone, Copy)]
pub struct Told {
    pub index: usize,
    pub note: Note,
}

/// The notes of a text: on names that nothing uses, on attached lists, on locals.
#[tactic(auto, unfolding(crate::specs::Notes::notes))]
pub fn notes(alloc: Global, tokens: &[Tok<'_>]) -> Result<Vec<Told>, AllocError>
    ensures { IfOk result (λ told. told.items ≡ notes (views tokens.now)) }
{
    let names = mentions(alloc, tokens)?;
    let mut out = Vec::new(alloc);
    push_unused(alloc, &mut out, tokens, names.as_slice())?;
    push_short_lists(&mut out, tokens, names.as_slice())?;
    push_locals(alloc, &mut out, tokens, names)?;
    Ok(out)
}
