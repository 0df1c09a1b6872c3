//! What is known of fields.

ghost use Rattle.std.specs.Prelude.{◌≡◌, ◌+◌, ◌-◌, ◌*◌, ◌<◌, ◌^◌, ℕ, ℤ, List, min, IfSome, IfOk};
ghost use Rattle.std.specs.Prelude.{get_or, slice_get};
ghost use Rattle.sl_asm_bits.specs.Known.{Has, HasBits, IsLeft};
ghost use Rattle.sl_asm_fit.specs.Cells.{Fits};
ghost use Rattle.sl_asm_fit.specs.Regions.{IsOf};
ghost use Rattle.sl_asm_fit.specs.Windows.{with_zeros};
ghost use Rattle.sl_asm_known.specs.Tokens.{token_number, turn};
ghost use Rattle.sl_cube.specs.Bits.{Agrees};
ghost use Rattle.sl_decode_leaves.specs.Fields.{own_if};
ghost use Rattle.sl_decode_meaning.specs.Lookups.{entry_at, given, number_at};
ghost use Rattle.sl_spec.specs.FieldValues.{bits_of, value_of};

use sl_asm_bits::{Known, are_apart, exact, exact_bits, joint, lowered, ones, raised, under};
use sl_asm_fit::Cell;
use sl_decode_leaves::token_of;
use sl_spec::{Entries, Field, FieldId, Tables, Token};
use sl_word::Endian;

/// How many bytes a decode is told.
pub(crate) const WINDOW: u64 = 272;

/// What is known of the byte at an index. A byte past the region's end is 0.
fn byte_at(region: &[Cell], index: usize) -> Cell
    ensures { (xs : List ℕ) → IsOf region.now xs → Fits result (get_or xs index 0) }
{
    if index < region.len() {
        let cell = region[index];
        return cell;
    }
    Cell {
        mask: 255,
        value: 0,
    }
}

/// Which of a token's bytes is read at a step, the most significant one first.
pub(crate) fn turn(endian: Endian, size: u64, step: u64) -> u64
    requires { step < size }
    ensures value { result ≡ turn endian size step }
    ensures within { result < size }
{
    match endian {
        Endian::Big => step,
        Endian::Little => size - 1 - step,
    }
}

/// What is known of a number with one byte more, the least significant, whose bits under the mask
/// are those of the value.
fn appended(number: &Known, mask: u8, value: u8) -> Known
    ensures { (n b : ℕ) → b < 256 → Has number.now n → Agrees mask value b
        → Has result (n * 256 + b) }
{
    under(
        (number.mask << 8) | u64::from(mask),
        (number.value << 8) | u64::from(value),
    )
}

/// What is known of the integer of a token that begins at the place. A token that isn't whole there
/// counts as 0; `at` stands for each place from 2^64 - 1 on, too.
fn token_bits(token: &Token, region: &[Cell], at: u64) -> Known
    ensures { (xs : List ℕ) (place : ℕ) → IsOf region.now xs → at ≡ min place (2 ^ 64 - 1)
        → Has result (token_number token.now (with_zeros xs) place) }
{
    let size = u64::from(token.bits / 8);
    if at > WINDOW - size {
        return exact_bits(0);
    }
    let mut number = exact_bits(0);
    'bytes: for index in 0..size {
        let place = at + turn(token.endian, size, index);
        let byte = byte_at(region, place as usize);
        number = appended(&number, byte.mask, byte.value);
    }
    number
}

/// What is known of the number that a field is read from: its token's integer, or the context.
fn number_bits(t: &Tables, of: &Field, region: &[Cell], at: u64, context: u64) -> Known
    ensures { (xs : List ℕ) (place : ℕ) → IsOf region.now xs → at ≡ min place (2 ^ 64 - 1)
        → Has result (number_at t.now of.now (with_zeros xs) place context) }
{
    match token_of(t, of) {
        Some(token) => token_bits(token, region, at),
        None => exact_bits(context),
    }
}

/// What is known of the bits of a field, as an unsigned number.
fn raw_bits(of: &Field, number: &Known) -> Known
    ensures { (n : ℕ) → Has number.now n → Has result (bits_of of.now.low of.now.high n) }
{
    let field = ones(of.width().into());
    under(
        (number.mask >> of.low) | !field,
        (number.value >> of.low) & field,
    )
}

/// What is known of a field's own value. The bits above an unsigned field are 0; those above a
/// signed one are its highest bit.
fn own_bits(of: &Field, number: &Known) -> Known
    ensures { (n : ℕ) → Has number.now n → HasBits result (value_of of.now n) }
{
    let raw = raw_bits(of, number);
    if of.signed {
        let above = 64 - u32::from(of.width());
        lowered(&raised(&raw, above), above)
    } else {
        raw
    }
}

/// What is known of a number that is one of those before, if there are some, or `n`.
fn joined(before: Option<Known>, n: i64) -> Known
    ensures before { (z : ℤ) → IsLeft before z → HasBits result z }
    ensures here { HasBits result n }
{
    match before {
        Some(known) => joint(&known, &exact(n)),
        None => exact(n),
    }
}

/// The entry at an index; none for `_`, and past the end.
fn entry_of(numbers: &[Option<i64>], index: usize) -> Option<i64>
    ensures { result ≡ entry_at numbers.now index }
{
    match numbers.get(index) {
        Some(entry) => *entry,
        None => None,
    }
}

/// What is known of the entries so far that are left, with one more if its index is left.
fn with_entry(left: Option<Known>, raw: &Known, index: u64, entry: Option<i64>) -> Option<Known>
    ensures kept { (z : ℤ) → IsLeft left z → IsLeft result z }
    ensures here { Has raw.now index → IfSome entry (IsLeft result) }
{
    let Some(n) = entry else {
        return left;
    };
    if are_apart(raw, &exact_bits(index)) {
        return left;
    }
    Some(joined(left, n))
}

/// What is known of the entries of the indices that are left; `None` where there is none.
fn entries_left(numbers: &[Option<i64>], raw: &Known) -> Option<Known>
    ensures { (index : ℕ) → Has raw.now index
        → IfSome (entry_at numbers.now index) (IsLeft result) }
{
    let mut left = None;
    'entries: for index in 0..numbers.len() {
        let entry = entry_of(numbers, index);
        left = with_entry(left, raw, index as u64, entry);
    }
    left
}

/// What is known of what a field gives in an action: its value, or the number that is attached to
/// it. `None` where there is no such number.
pub(crate) fn given_bits(
    t: &Tables,
    id: FieldId,
    region: &[Cell],
    at: u64,
    context: u64,
) -> Option<Known>
    ensures { (xs : List ℕ) (place : ℕ) → IsOf region.now xs → at ≡ min place (2 ^ 64 - 1)
        → IfOk (given t.now id (with_zeros xs) place context) (IsLeft result) }
{
    let Some(of) = t.fields.at(id.number() as usize) else {
        return Some(exact(0));
    };
    let number = number_bits(t, of, region, at, context);
    let Some(attached) = t.attached.get(id) else {
        return Some(own_bits(of, &number));
    };
    match &*attached.entries {
        Entries::Registers(_) => Some(own_bits(of, &number)),
        Entries::Texts(_) => Some(own_bits(of, &number)),
        Entries::Values(numbers) => entries_left(numbers, &raw_bits(of, &number)),
    }
}

/// What is known of what a field gives by its own value, whatever is attached to it.
pub(crate) fn plain_bits(t: &Tables, id: FieldId, region: &[Cell], at: u64, context: u64) -> Known
    ensures { (xs : List ℕ) (place : ℕ) → IsOf region.now xs → at ≡ min place (2 ^ 64 - 1)
        → IfOk (own_if t.now (slice_get t.now.fields id) (with_zeros xs) place context)
        (HasBits result) }
{
    match t.fields.at(id.number() as usize) {
        Some(of) => own_bits(of, &number_bits(t, of, region, at, context)),
        None => exact(0),
    }
}
