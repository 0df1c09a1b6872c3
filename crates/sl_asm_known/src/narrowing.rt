//! Regions narrowed by the bits of a field.

ghost use Rattle.std.specs.Prelude.{◌≡◌, suc, ◌+◌, ◌-◌, ◌*◌, ◌<◌, ◌≤◌, ℕ, IfSome, IsTrue, option_map};
ghost use Rattle.sl_asm_bits.specs.Known.{Has};
ghost use Rattle.sl_asm_fit.specs.Cells.{Fits};
ghost use Rattle.sl_asm_known.specs.FieldBits.{GivesOwn, HasFieldBits, HasKnownBits};
ghost use Rattle.sl_asm_known.specs.FieldBits.{HasNumberBits, HasTokenBits, IsLeftWhere};

use crate::Frame;
use crate::fields::{WINDOW, turn};
use crate::values::place_of;
use sl_asm_bits::{Known, are_apart, exact_bits, ones, under};
use sl_asm_fit::{Cell, narrow_one};
use sl_decode_leaves::{Extent, token_of};
use sl_spec::{Field, FieldId, Tables, Token};

/// What is known of the least significant byte of a number.
fn lowest(number: &Known) -> Cell
    ensures { (n b : ℕ) → b < 256 → Has number.now (n * 256 + b) → Fits result b }
{
    let mask = (number.mask & 255) as u8;
    let value = (number.value & 255) as u8;
    Cell {
        mask,
        value: value & mask,
    }
}

/// What is known of a number without that byte.
fn above(number: &Known) -> Known
    ensures { (n b : ℕ) → b < 256 → Has number.now (n * 256 + b) → Has result n }
{
    under(number.mask >> 8, number.value >> 8)
}

/// The region narrowed by what is known of the integer of a token at the place, the least significant
/// byte first. A token that isn't whole there says nothing.
fn by_token(token: &Token, region: Vec<Cell>, at: u64, integer: &Known) -> Option<Vec<Cell>>
    ensures { IsLeftWhere (HasTokenBits token.now at integer.now) region.items
        (option_map (λ v. v.items) result) }
{
    let size = u64::from(token.bits / 8);
    if at > WINDOW - size {
        return Some(region);
    }
    let mut left = region;
    let mut rest = *integer;
    'bytes: for step in 0..size {
        let place = at + turn(token.endian, size, size - 1 - step);
        let byte = lowest(&rest);
        if !narrow_one(&mut left, place as usize, &byte) {
            return None;
        }
        rest = above(&rest);
    }
    Some(left)
}

/// What is known of the number that a field is read from, by what is known of the field's bits.
fn moved_up(of: &Field, bits: &Known) -> Known
    ensures has { (n : ℕ) → HasKnownBits of.now bits.now n → Has result n }
    ensures some { 1 ≤ suc of.now.high - of.now.low }
    ensures most { suc of.now.high - of.now.low ≤ 64 }
{
    let field = ones(of.width().into());
    under(
        (bits.mask & field) << of.low,
        (bits.value & field) << of.low,
    )
}

/// Whether a context has the bits, as far as it is known.
fn may_have(context: Option<u64>, number: &Known) -> bool
    ensures { (from : ℕ) → IfSome context (λ c. c ≡ from) → Has number.now from → IsTrue result }
{
    match context {
        Some(known) => !are_apart(number, &exact_bits(known)),
        None => true,
    }
}

/// The region narrowed by what is known of the number that the field is read from.
fn by_number(
    t: &Tables,
    of: &Field,
    region: Vec<Cell>,
    at: u64,
    context: Option<u64>,
    number: &Known,
) -> Option<Vec<Cell>>
    ensures { IsLeftWhere (HasNumberBits t.now of.now at context number.now) region.items
        (option_map (λ v. v.items) result) }
{
    let Some(token) = token_of(t, of) else {
        return if may_have(context, number) {
            Some(region)
        } else {
            None
        };
    };
    by_token(token, region, at, number)
}

/// Lists of the region, among them all in which the field has each of its bits that is known, the
/// lowest first, its token at the place, from a context that may be known; `None` only where there are
/// none. The place 2^64 - 1 stands for all that is more.
pub fn narrowed_by_bits(
    t: &Tables,
    of: &Field,
    region: Vec<Cell>,
    at: u64,
    context: Option<u64>,
    bits: &Known,
) -> Option<Vec<Cell>>
    ensures { IsLeftWhere (HasFieldBits t.now of.now at context bits.now) region.items
        (option_map (λ v. v.items) result) }
{
    let number = moved_up(of, bits);
    by_number(t, of, region, at, context, &number)
}

/// Lists of the region, among them all that give a field an own value with the wanted bits; `None`
/// only where there are none.
pub fn narrowed_by_own(
    t: &Tables,
    frame: &Frame,
    region: Vec<Cell>,
    id: FieldId,
    place: &Extent,
    wanted: &Known,
) -> Option<Vec<Cell>>
    ensures { IsLeftWhere (GivesOwn t.now frame.now id place.now wanted.now) region.items
        (option_map (λ v. v.items) result) }
{
    let Some(of) = t.fields.at(id.number() as usize) else {
        return Some(region);
    };
    let number = moved_up(of, wanted);
    let at = place_of(frame, place);
    by_number(t, of, region, at, Some(frame.context), &number)
}
