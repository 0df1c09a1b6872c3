//! What is wrong with the places of registers and with bit ranges.

ghost use Rattle.std.specs.Prelude.{◌≡◌};
ghost use Rattle.sl_explain_names.specs.ItemView.{item};
ghost use Rattle.sl_explain_names.specs.Ranges as spec;
ghost use Rattle.sl_lex.specs.Views.{views};

use crate::definitions::{is_after, number_at, size_of};
use crate::findings::Finding;
use crate::item::{Item, is_defining, is_register};
use crate::names::{Mention, count_up_to, definition};
use crate::patterns::found;
use crate::places::Place;
use crate::tokens::{has_after, number_after, text_after};
use sl_explain_heads::from;
use sl_lex::Tok;

// ---- 7

/// Whether a place is a name of a definition of registers.
fn is_register_place(i: &Item<'_, '_>, place: Place) -> bool
    ensures { result ≡ spec.is_register_place (item i.now) place }
{
    is_defining(place.part) && i.is_word(place) && 7 < place.index.saturating_sub(i.start)
}

fn count_registers(i: &Item<'_, '_>) -> usize
    ensures { result ≡ spec.count_registers (item i.now) }
{
    i.places
        .iter()
        .filter(|p| is_register_place(i, **p))
        .count()
}

/// Where so many registers of a size end that lie one behind the other; it stops at 2^64 - 1.
fn end_of_places(offset: u64, size: u64, count: usize) -> u64
    ensures { result ≡ spec.end_of_places offset size count }
{
    offset.saturating_add(size.saturating_mul(count as u64))
}

/// The bytes of an address of the space that is defined here.
fn address_size(tokens: &[Tok<'_>], mention: Option<Mention>) -> u64
    ensures { result ≡ spec.address_size (views tokens.now) mention }
{
    match mention {
        Some(mention) => {
            let count = count_up_to(tokens, mention.index, b"size");
            number_after(from(tokens, mention.index), count, 2)
        }
        None => 0,
    }
}

/// What is wrong with an end in a space whose addresses have so many bytes.
fn end_finding(end: u64, bytes: u64) -> Option<Finding>
    ensures { result ≡ spec.end_finding end bytes }
{
    if bytes < 8 {
        let space = 1_u64 << (8 * bytes);
        found(space < end, Finding::PlacesPast { end, space })
    } else {
        None
    }
}

/// The bytes of an address of the space in which the registers lie.
fn space_size(i: &Item<'_, '_>) -> u64
    ensures { result ≡ spec.space_size (item i.now) }
{
    let name = text_after(i.tokens, i.start, 1);
    let definition = definition(i.tokens, i.names.as_slice(), i.start, name);
    address_size(i.tokens, definition)
}

/// Rule 7: all places of a definition of registers end within their space.
pub fn places_finding(i: &Item<'_, '_>, place: Place) -> Option<Finding>
    ensures { result ≡ spec.places_finding (item i.now) place }
{
    if is_after(i, place, 2, b"offset") {
        let size = number_after(i.tokens, i.start, 7);
        let end = end_of_places(number_at(i, place), size, count_registers(i));
        end_finding(end, space_size(i))
    } else {
        None
    }
}

// ---- 8

/// Whether a place is the name of a bit range.
fn is_range_name(i: &Item<'_, '_>, place: Place) -> bool
    ensures { result ≡ spec.is_range_name (item i.now) place }
{
    is_defining(place.part)
        && has_after(i.tokens, i.start, 1, b"bitrange")
        && has_after(i.tokens, place.index, 1, b"=")
}

/// The bit after the last of so many from this one on; it stops at 2^64 - 1.
fn end_of_bits(low: u64, count: u64) -> u64
    ensures { result ≡ spec.end_of_bits low count }
{
    low.saturating_add(count)
}

/// What is wrong with so many bits from this one on of a register with so many bits.
fn taken_finding(bits: u64, low: u64, count: u64) -> Option<Finding>
    ensures { result ≡ spec.taken_finding bits low count }
{
    if count == 0 {
        Some(Finding::HasNoBits)
    } else {
        let end = end_of_bits(low, count);
        found(bits < end, Finding::BitsPast { end, bits })
    }
}

/// The bits of the register of this name.
fn bits_of(i: &Item<'_, '_>, name: &[u8]) -> u64
    ensures { result ≡ spec.bits_of (item i.now) name.now }
{
    8 * size_of(i, name).min(16)
}

/// What is wrong with a bit range of the register of this name.
fn range_of_finding(i: &Item<'_, '_>, place: Place, name: &[u8]) -> Option<Finding>
    ensures { result ≡ spec.range_of_finding (item i.now) place name.now }
{
    let kind = i.kind_of(name);
    if is_register(kind) {
        let low = number_after(i.tokens, place.index, 4);
        let count = number_after(i.tokens, place.index, 6);
        taken_finding(bits_of(i, name), low, count)
    } else {
        Some(Finding::RangeOf(kind))
    }
}

/// Rule 8: a bit range's register is defined before; the range has at least one bit, and ends within
/// the register.
pub fn bit_range_finding(i: &Item<'_, '_>, place: Place) -> Option<Finding>
    ensures { result ≡ spec.bit_range_finding (item i.now) place }
{
    if is_range_name(i, place) {
        range_of_finding(i, place, text_after(i.tokens, place.index, 2))
    } else {
        None
    }
}
