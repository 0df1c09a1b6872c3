//! What fields stand for.

ghost use Rattle.std.specs.Prelude.{◌≡◌, ◌+◌, List, option_copied};
ghost use Rattle.sl_build_emit.specs.Views.{reference_of};
ghost use Rattle.sl_meaning_instruction.specs.Operands as spec;
ghost use Rattle.sl_decode_leaves.specs.Extents.{extent};
ghost use Rattle.sl_spec.specs.Attachments.{attached_to};
ghost use Rattle.sl_spec.specs.Views.{entries_of};

use crate::numbers::{nothing, plain};
use crate::references::storage;
use sl_build_emit::Reference;
use sl_decode_leaves::{Extent, extent_of, number_at, number_of, register_at};
use sl_spec::{Entries, Field, FieldId, Register, Tables};

fn register_reference(register: Option<&Register>) -> Reference
    ensures { reference_of result ≡ spec.register_reference (option_copied register.entry) }
{
    match register {
        Some(r) => storage(r.space, r.offset, r.size),
        None => nothing(),
    }
}

/// What is attached at an index, or the field's own value.
fn entry_reference(t: &Tables, entries: &Entries, index: u64, own: i64) -> Reference
    ensures { reference_of result
        ≡ spec.entry_reference t.now (entries_of entries.now) index own }
{
    match entries {
        Entries::Registers(ids) => register_reference(register_at(t, ids, index)),
        Entries::Texts(_) => plain(own),
        Entries::Values(numbers) => plain(number_of(numbers, index)),
    }
}

/// A field that is read from a number.
fn field_by(t: &Tables, id: FieldId, of: &Field, number: u64) -> Reference
    ensures { reference_of result
        ≡ spec.field_reference_by t.now of.now (attached_to id t.now.attached) number }
{
    match t.attached.get(id) {
        Some(attached) => {
            let entries = &attached.entries;
            entry_reference(t, entries, of.bits_of(number), of.value_of(number))
        }
        None => plain(of.value_of(number)),
    }
}

/// A field. A token's field is read at the place, in bytes from the front.
fn field_reference(t: &Tables, id: FieldId, bytes: &[u8], at: u64, context: u64) -> Reference
    ensures { reference_of result ≡ spec.field_reference t.now id bytes.now at context }
{
    match t.fields.at(id.number() as usize) {
        Some(of) => field_by(t, id, of, number_at(t, of, bytes, at, context)),
        None => nothing(),
    }
}

/// A field whose token begins at a place from the node's own, by the lengths of the nodes below it.
pub(crate) fn field_at(
    t: &Tables,
    id: FieldId,
    bytes: &[u8],
    at: u32,
    place: &Extent,
    lengths: &[u32],
    context: u64,
) -> Reference
    ensures { reference_of result ≡ spec.field_reference t.now id bytes.now
        (at + extent place.now lengths.now) context }
{
    let at = u64::from(at).saturating_add(extent_of(place, lengths));
    field_reference(t, id, bytes, at, context)
}
