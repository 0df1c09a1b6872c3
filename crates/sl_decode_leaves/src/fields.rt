//! What fields give.

ghost use Rattle.std.specs.Prelude.{◌≡◌, ◌+◌, ◌-◌, ◌/◌, ◌<◌, nat_le, length, take, drop};
ghost use Rattle.std.specs.Prelude.{ℕ, List, IsTrue, Ok, Some, if◌then◌else◌, option_copied};
ghost use Rattle.std.specs.Prelude.{option_and_then, slice_get};
ghost use Rattle.sl_decode_meaning.specs.Lookups as spec;
ghost use Rattle.sl_decode_meaning.specs.Lookups.{entry_at, given_by, has_entry, number_at};
ghost use Rattle.sl_decode_meaning.specs.Lookups.{number_for};
ghost use Rattle.sl_decode_meaning.specs.Lookups.{shown_by};
ghost use Rattle.sl_decode_meaning.specs.Values.{value_or_zero};
ghost use Rattle.sl_decode_leaves.specs.Fields.{own_if};
ghost use Rattle.sl_spec.specs.FieldValues.{bits_of, token_integer, token_of};
ghost use Rattle.sl_spec.specs.Views.{entries_of};

use sl_decode_meaning::Fault;
use sl_spec::{Entries, Field, FieldId, RegId, Register, Tables, Token};

/// The width in bits of the widest field for which entries are looked for at all its values.
const WIDEST: u8 = 8;

/// The integer of a token that begins at the place; 0 where it isn't whole there.
fn whole_number(token: &Token, bytes: &[u8], at: u64) -> u64
    ensures { result ≡ (if nat_le (at + token.now.bits / 8) (length bytes.now)
        then token_integer token.now.endian (take (token.now.bits / 8) (drop at bytes.now))
        else 0) }
{
    let size = u64::from(token.bits / 8);
    let count = bytes.len() as u64;
    if size <= count && at <= count - size {
        token.number_at(bytes, at as usize)
    } else {
        0
    }
}

/// The token of a field; none for a field of the context.
pub fn token_of<'t, 'a>(t: &'t Tables<'a>, of: &Field) -> Option<&'t Token<'a>>
    ensures { option_copied result ≡ token_of t.now.tokens of.now }
{
    match of.token {
        Some(token) => t.tokens.at(token as usize),
        None => None,
    }
}

/// The integer of a field's token that begins at the place, or the context. A token that isn't whole
/// there counts as 0.
pub fn number_at(t: &Tables, of: &Field, bytes: &[u8], at: u64, context: u64) -> u64
    ensures { result ≡ number_at t.now of.now bytes.now at context }
{
    match token_of(t, of) {
        Some(token) => whole_number(token, bytes, at),
        None => context,
    }
}

/// The entry at an index.
fn entry(numbers: &[Option<i64>], index: u64) -> Option<i64>
    ensures { result ≡ entry_at numbers.now index }
{
    match numbers.get(index as usize) {
        Some(entry) => *entry,
        None => None,
    }
}

/// The number at an index of a list; 0 where there is none.
pub fn number_of(numbers: &[Option<i64>], index: u64) -> i64
    ensures { result ≡ value_or_zero (entry_at numbers.now index) }
{
    match entry(numbers, index) {
        Some(number) => number,
        None => 0,
    }
}

/// The register at an index of a list, if there is one.
pub fn register_at<'t, 'a>(
    t: &'t Tables<'a>,
    ids: &[Option<RegId>],
    index: u64,
) -> Option<&'t Register<'a>>
    ensures { option_copied result
        ≡ option_and_then (λ id. slice_get t.now.registers id) (entry_at ids.now index) }
{
    match ids.get(index as usize) {
        Some(Some(id)) => t.registers.at(id.0 as usize),
        _ => None,
    }
}

/// What stands for a value in an action.
fn number_for(entries: &Entries, index: u64, own: i64) -> Option<i64>
    ensures { result ≡ number_for (entries_of entries.now) index own }
{
    match entries {
        Entries::Registers(_) => Some(own),
        Entries::Texts(_) => Some(own),
        Entries::Values(numbers) => entry(numbers, index),
    }
}

/// Whether there is an entry at an index.
fn has_entry(entries: &Entries, index: u64) -> bool
    ensures { result ≡ has_entry (entries_of entries.now) index }
{
    match entries {
        Entries::Registers(ids) => matches!(ids.get(index as usize), Some(Some(_))),
        Entries::Texts(names) => matches!(names.get(index as usize), Some(Some(_))),
        Entries::Values(numbers) => matches!(numbers.get(index as usize), Some(Some(_))),
    }
}

/// What a field gives in an action, by the number that it is read from.
fn given_by(t: &Tables, id: FieldId, of: &Field, number: u64) -> Result<i64, Fault>
    ensures { result ≡ given_by t.now id of.now number }
{
    let index = of.bits_of(number);
    let own = of.value_of(number);
    let found = match t.attached.get(id) {
        Some(attached) => number_for(&attached.entries, index, own),
        None => Some(own),
    };
    match found {
        Some(value) => Ok(value),
        None => Err(Fault::NoEntry {
            field: id,
            value: index,
        }),
    }
}

/// What a field gives in an action: its value, or the number that is attached to it. A token's field
/// is read at the place, in bytes from the front.
pub fn given(t: &Tables, id: FieldId, bytes: &[u8], at: u64, context: u64) -> Result<i64, Fault>
    ensures { result ≡ spec.given t.now id bytes.now at context }
{
    match t.fields.at(id.number() as usize) {
        Some(of) => given_by(t, id, of, number_at(t, of, bytes, at, context)),
        None => Ok(0),
    }
}

/// What a field gives by its own value, whatever is attached to it. A token's field is read at the
/// place, in bytes from the front.
pub fn own(t: &Tables, id: FieldId, bytes: &[u8], at: u64, context: u64) -> i64
    ensures { Ok result ≡ own_if t.now (slice_get t.now.fields id) bytes.now at context }
{
    match t.fields.at(id.number() as usize) {
        Some(of) => of.value_of(number_at(t, of, bytes, at, context)),
        None => 0,
    }
}

/// Whether a field has an entry, if anything is attached to it, by the number that it is read from.
fn shown_by(t: &Tables, id: FieldId, of: &Field, number: u64) -> Result<(), Fault>
    ensures { result ≡ shown_by t.now id of.now number }
{
    let index = of.bits_of(number);
    let there = match t.attached.get(id) {
        Some(attached) => has_entry(&attached.entries, index),
        None => true,
    };
    if there {
        Ok(())
    } else {
        Err(Fault::NoEntry {
            field: id,
            value: index,
        })
    }
}

/// Looks a field up that stands alone: it has an entry, if anything is attached to it.
pub fn shown(t: &Tables, id: FieldId, bytes: &[u8], at: u64, context: u64) -> Result<(), Fault>
    ensures { result ≡ spec.shown t.now id bytes.now at context }
{
    match t.fields.at(id.number() as usize) {
        Some(of) => shown_by(t, id, of, number_at(t, of, bytes, at, context)),
        None => Ok(()),
    }
}

/// Whether each of the first `count` indices has an entry.
fn has_entries(entries: &Entries, count: u64) -> bool
    ensures { IsTrue result → (index : ℕ) → index < count
        → IsTrue (has_entry (entries_of entries.now) index) }
{
    'indices: for index in 0..count {
        if !has_entry(entries, index) {
            return false;
        }
    }
    true
}

/// Whether there is an entry at each index that a field's bits can have; `false` of a field that is
/// wider than `WIDEST`.
fn has_every_entry(entries: &Entries, of: &Field) -> bool
    ensures { IsTrue result → (number : ℕ)
        → IsTrue (has_entry (entries_of entries.now) (bits_of of.now.low of.now.high number)) }
{
    let width = of.width();
    width <= WIDEST && has_entries(entries, 1 << width)
}

/// Whether the look-up of a field is known never to fail: nothing is attached to it, or its bits have
/// an entry whatever they are. `false` leaves open whether it fails.
pub fn is_always_shown(t: &Tables, id: FieldId) -> bool
    ensures { IsTrue result → (bytes : List ℕ) (at context : ℕ)
        → spec.shown t.now id bytes at context ≡ Ok tt }
{
    match (t.attached.get(id), t.fields.at(id.number() as usize)) {
        (Some(attached), Some(of)) => has_every_entry(&attached.entries, of),
        _ => true,
    }
}
