//! Fields as text.

ghost use Rattle.std.specs.Prelude.{◌≡◌, ◌++◌, OnOk};
ghost use Rattle.sl_show.specs.Texts.{entry_text, field_text, field_text_by};
ghost use Rattle.sl_spec.specs.Attachments.{attached_to};
ghost use Rattle.sl_spec.specs.Views.{entries_of};

use crate::numbers::push_number;
use sl_decode_leaves::{number_at, number_of, register_at};
use sl_spec::{Entries, Field, FieldId, Tables};
use std::alloc::AllocError;

/// Appends the entry at an index.
fn push_entry(
    t: &Tables,
    dec: bool,
    entries: &Entries,
    index: u64,
    out: &mut Vec<u8>,
) -> Result<(), AllocError>
    ensures { OnOk result (out.new.items
        ≡ out.old.items ++ entry_text t.now dec (entries_of entries.now) index) }
{
    match entries {
        Entries::Registers(ids) => match register_at(t, ids, index) {
            Some(register) => out.extend_from_slice(register.name),
            None => Ok(()),
        },
        Entries::Texts(names) => match names.get(index as usize) {
            Some(Some(name)) => out.extend_from_slice(name),
            _ => Ok(()),
        },
        Entries::Values(numbers) => push_number(out, dec, number_of(numbers, index)),
    }
}

/// Appends a field that is read from a number: what is attached to its bits, or else its value.
fn push_field_by(
    t: &Tables,
    id: FieldId,
    of: &Field,
    number: u64,
    out: &mut Vec<u8>,
) -> Result<(), AllocError>
    ensures { OnOk result (out.new.items ≡ out.old.items
        ++ field_text_by t.now of.now (attached_to id t.now.attached) number) }
{
    match t.attached.get(id) {
        Some(attached) => push_entry(t, of.dec, &attached.entries, of.bits_of(number), out),
        None => push_number(out, of.dec, of.value_of(number)),
    }
}

/// Appends a field. A token's field is read at the place, in bytes from the front.
pub(crate) fn push_field(
    t: &Tables,
    id: FieldId,
    bytes: &[u8],
    at: u64,
    context: u64,
    out: &mut Vec<u8>,
) -> Result<(), AllocError>
    ensures { OnOk result (out.new.items
        ≡ out.old.items ++ field_text t.now id bytes.now at context) }
{
    match t.fields.at(id.number() as usize) {
        Some(of) => push_field_by(t, id, of, number_at(t, of, bytes, at, context), out),
        None => Ok(()),
    }
}
