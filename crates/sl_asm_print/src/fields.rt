//! What a field's text says of its bits.

ghost use Rattle.std.specs.Prelude.{◌≡◌, ◌<◌, ◌≤◌, ◌*◌, ◌%◌, ◌^◌, ℕ, IfOk, IsTrue};
ghost use Rattle.std.specs.Prelude.{map, option_map};
ghost use Rattle.sl_asm_bits.specs.Known.{Has};
ghost use Rattle.sl_asm_known.specs.FieldBits.{HasSomeBits};
ghost use Rattle.sl_asm_print.specs.Fields.{HasCode, entries_count};
ghost use Rattle.sl_decode_meaning.specs.Lookups.{entry_at};
ghost use Rattle.sl_show.specs.Numbers.{number_text};
ghost use Rattle.sl_show.specs.Texts.{entry_text, field_text_by, or_nothing};
ghost use Rattle.sl_spec.specs.Attachments.{attached_to};
ghost use Rattle.sl_spec.specs.FieldValues.{value_of};
ghost use Rattle.sl_spec.specs.Views.{entries_of};

use crate::digits::{number_in, number_with};
use sl_asm_bits::{Known, exact, exact_bits, joint, under};
use sl_decode_leaves::{number_of, register_at};
use sl_spec::{Entries, Field, FieldId, Tables};
use std::alloc::{AllocError, Global};

/// The text at an index of a list; none where there is none.
fn text_at<'e>(names: &[Option<&'e [u8]>], index: u64) -> &'e [u8]
    ensures { result.now
        ≡ or_nothing (entry_at (map (λ name. option_map (λ n. n.now) name) names.now) index) }
{
    match names.get(index as usize) {
        Some(Some(name)) => name,
        _ => &[],
    }
}

/// Whether both texts are the same.
fn is_same(one: &[u8], other: &[u8]) -> bool
    ensures { one.now ≡ other.now → IsTrue result }
{
    match (one.last(), other.last()) {
        (Some(end), Some(other_end)) => *end == *other_end && one == other,
        (end, other_end) => end.is_none() && other_end.is_none(),
    }
}

/// Whether the entry at an index has the text; a number has any text that reads as it.
fn has_text(t: &Tables, dec: bool, entries: &Entries, index: u64, text: &[u8]) -> bool
    ensures { entry_text t.now dec (entries_of entries.now) index ≡ text.now → IsTrue result }
{
    match entries {
        Entries::Registers(ids) => match register_at(t, ids, index) {
            Some(register) => is_same(register.name, text),
            None => text.is_empty(),
        },
        Entries::Texts(names) => is_same(text_at(names, index), text),
        Entries::Values(numbers) => number_of(numbers, index) == number_in(dec, text),
    }
}

/// How many entries there are.
fn count(entries: &Entries) -> u64
    ensures { result ≡ entries_count (entries_of entries.now) }
{
    match entries {
        Entries::Registers(ids) => ids.len() as u64,
        Entries::Texts(names) => names.len() as u64,
        Entries::Values(numbers) => numbers.len() as u64,
    }
}

/// The value of the field where its bits are the lowest ones of the number.
fn value_of_code(of: &Field, code: u64) -> i64
    ensures value { result ≡ value_of of.now (code * 2 ^ of.now.low % 2 ^ 64) }
    ensures order { of.now.low ≤ of.now.high }
    ensures most { of.now.high ≤ 63 }
{
    of.value_of(code << of.low)
}

/// What is known of the field's bits where it has the value; `None` where it never has.
fn bits_of_value(of: &Field, value: i64) -> Option<Known>
    ensures { (n : ℕ) → value_of of.now n ≡ value → HasSomeBits of.now result n }
{
    if value_of_code(of, value.cast_unsigned()) == value {
        Some(exact(value))
    } else {
        None
    }
}

/// The same where the field's value is shown as the text.
fn bits_of_number(alloc: Global, of: &Field, text: &[u8]) -> Result<Option<Known>, AllocError>
    ensures { IfOk result (λ found. (n : ℕ) → number_text of.now.dec (value_of of.now n) ≡ text.now
        → HasSomeBits of.now found n) }
{
    let read = number_with(alloc, of.dec, text)?;
    let Some(value) = read else {
        return Ok(None);
    };
    Ok(bits_of_value(of, value))
}

/// What is known of a code that is one of those before, if there are some, or this one.
fn with_code(before: Option<Known>, code: u64) -> Known
    ensures before { (c : ℕ) → HasCode before c → Has result c }
    ensures here { Has result code }
{
    match before {
        Some(known) => joint(&known, &exact_bits(code)),
        None => exact_bits(code),
    }
}

/// What is known of the codes whose entries have the text; `None` where there are none.
fn codes_with(t: &Tables, dec: bool, entries: &Entries, text: &[u8]) -> Option<Known>
    ensures { (code : ℕ) → code < entries_count (entries_of entries.now)
        → entry_text t.now dec (entries_of entries.now) code ≡ text.now → HasCode result code }
{
    let mut codes = None;
    'entries: for index in 0..count(entries) {
        if has_text(t, dec, entries, index, text) {
            codes = Some(with_code(codes, index));
        }
    }
    codes
}

/// The same of all codes. Where those without an entry are shown so, too, nothing is known.
fn codes_shown(t: &Tables, dec: bool, entries: &Entries, text: &[u8]) -> Option<Known>
    ensures { (code : ℕ) → entry_text t.now dec (entries_of entries.now) code ≡ text.now
        → HasCode result code }
{
    if has_text(t, dec, entries, count(entries), text) {
        return Some(under(0, 0));
    }
    codes_with(t, dec, entries, text)
}

/// What is known of the bits of a field that is shown as the text, whatever it is read from; `None`
/// only where it never is. The only error is want of memory.
pub fn bits_with_text(
    alloc: Global,
    t: &Tables,
    id: FieldId,
    of: &Field,
    text: &[u8],
) -> Result<Option<Known>, AllocError>
    ensures { IfOk result (λ found. (n : ℕ)
        → field_text_by t.now of.now (attached_to id t.now.attached) n ≡ text.now
        → HasSomeBits of.now found n) }
{
    let Some(attached) = t.attached.get(id) else {
        let found = bits_of_number(alloc, of, text)?;
        return Ok(found);
    };
    Ok(codes_shown(t, of.dec, &attached.entries, text))
}
