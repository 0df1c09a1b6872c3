//! What is attached to fields, by the field.

ghost use Rattle.std.specs.Prelude.{◌≡◌, ◌∷◌, [], ◌++◌, OnOk, OnErr, None, option_copied, false};
ghost use Rattle.std.specs.Prelude.{ℕ, ◌<◌, ◌^◌, length, slice_index_or};
ghost use Rattle.sl_spec.specs.Attachments.{attached_to, index_attached, is_attached};

use crate::definitions::Attached;
use crate::ids::FieldId;
use crate::listed::Listed;
use std::alloc::{AllocError, Global};
use std::marker::Model;

/// What is attached to fields, at most once to each. Contracts see the list of it, in the order in
/// which it was added.
#[derive(Drop)]
pub struct Attachments<'a> {
    added: Listed<Attached<'a>>,
    /// By a field's number, the index in `added` of what is attached to it. Fields past the end
    /// have nothing.
    by_field: Vec<Option<u32>>,
}

impl<'a> Model for Attachments<'a> {
    ghost use Rattle.std.specs.Prelude.{List, ℕ, None, slice_index_or, ◌≡◌};
    ghost use Rattle.sl_spec.specs.Attachments.{index_attached};
    ghost use Rattle.sl_spec.specs.Tables as spec;

    ghost Value = { List spec.Attached };

    ghost view = { λ t. t.added };

    ghost invariant = { λ t. (field : ℕ) →
        slice_index_or t.by_field.items field None ≡ index_attached field t.added };
}

/// Makes the list long enough for a field of this number. Further fields have nothing.
fn make_room(by_field: &mut Vec<Option<u32>>, number: usize) -> Result<(), AllocError>
    requires { number < 2 ^ 32 }
    ensures room { OnOk result (number < length by_field.new.items) }
    ensures same { (field : ℕ) → slice_index_or by_field.new.items field None
        ≡ slice_index_or by_field.old.items field None }
{
    if number < by_field.len() {
        return Ok(());
    }
    by_field.resize(number + 1, None)
}

impl<'a> Attachments<'a> {
    pub fn new(alloc: Global) -> Self
        ensures { result ≡ [] }
    {
        Attachments {
            added: Listed::new(alloc),
            by_field: Vec::new(alloc),
        }
    }

    /// The index of what is attached to the field.
    fn index(&self, field: FieldId) -> Option<u32>
        ensures { result ≡ index_attached field self.now }
    {
        match self.by_field.get(field.number() as usize) {
            Some(index) => *index,
            None => None,
        }
    }

    /// Whether something is attached to the field.
    pub fn has(&self, field: FieldId) -> bool
        ensures { result ≡ is_attached field self.now }
    {
        self.get(field).is_some()
    }

    /// What is attached to the field.
    pub fn get(&self, field: FieldId) -> Option<&Attached<'a>>
        ensures { option_copied result ≡ attached_to field self.now }
    {
        match self.index(field) {
            Some(index) => self.added.get(index as usize),
            None => None,
        }
    }

    /// Attaches to a field to which nothing is attached yet.
    pub fn add(&mut self, added: Attached<'a>) -> Result<(), AllocError>
        requires { is_attached added.field self.old ≡ false }
        ensures added { OnOk result (self.new ≡ self.old ++ added.entry ∷ []) }
        ensures kept { OnErr result (self.new ≡ self.old) }
    {
        let field = added.field.number() as usize;
        // 2^32 attachments would be want of memory.
        let Ok(index) = u32::try_from(self.added.len()) else {
            return Err(AllocError);
        };
        make_room(&mut self.by_field, field)?;
        self.added.push(added)?;
        self.by_field[field] = Some(index);
        Ok(())
    }
}
