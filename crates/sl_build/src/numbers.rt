//! Numbers for which operands stand.

ghost use Rattle.std.specs.Prelude.{◌≡◌, ◌<◌, ◌%◌, ◌^◌, negsuc, pos};
ghost use Rattle.sl_build_emit.specs.Views.{number_of, reference_of};
ghost use Rattle.sl_meaning_sections.specs.Nodes.{nothing};
ghost use Rattle.sl_meaning_sections.specs.Nodes as meaning;
ghost use Rattle.sl_meaning_sections.specs.References as r;
ghost use Rattle.sl_spec_operators.specs.Operators.{wrapped};
ghost use Rattle.sl_word.specs.Numbers as z;

use sl_build_emit::{Number, Reference};
use sl_spec_operators::literal;
use sl_word::Size;

/// A number of 64 bits.
pub(crate) fn number(v: i64) -> Number
    ensures { number_of result ≡ v }
{
    if v < 0 {
        Number::Below(v.unsigned_abs() - 1)
    } else {
        Number::Natural(v.unsigned_abs())
    }
}

/// An address in 64-bit two's complement.
pub(crate) fn address_number(address: u64) -> Number
    ensures { number_of result ≡ wrapped (pos address) }
{
    number(literal(address))
}

pub(crate) fn plain(v: i64) -> Reference
    ensures { reference_of result ≡ r.number v }
{
    Reference::Plain(number(v))
}

/// What stands where the rules want an export.
pub(crate) fn nothing() -> Reference
    ensures { reference_of result ≡ nothing }
{
    Reference::Plain(Number::Natural(0))
}

/// The number modulo 256^n.
fn cut(v: u64, n: Size) -> u64
    ensures { result ≡ v % 256 ^ n.bytes }
{
    match 256u64.checked_pow(u32::from(n.bytes)) {
        Some(m) => v % m,
        None => v,
    }
}

/// -1 less the number, modulo 256^n; 0 where n is 8 or more.
fn below(v: u64, n: Size) -> u64
    ensures { n.bytes < 8 → result ≡ z.residue n.bytes (negsuc v) }
{
    match 256u64.checked_pow(u32::from(n.bytes)) {
        Some(m) => m - 1 - v % m,
        None => 0,
    }
}

/// A number as one of n bytes; of 8 bytes and more it is what it was.
fn cut_number(v: Number, n: Size) -> Number
    ensures { number_of result ≡ meaning.cut_number n.bytes (number_of v) }
{
    if n.bytes >= 8 {
        return v;
    }
    match v {
        Number::Natural(v) => Number::Natural(cut(v, n)),
        Number::Below(v) => Number::Natural(below(v, n)),
    }
}

/// What is exported as a constant of n bytes.
pub(crate) fn cut_to(r: Reference, n: Size) -> Reference
    ensures { reference_of result ≡ meaning.cut_to n.bytes (reference_of r) }
{
    match r {
        Reference::Plain(v) => Reference::Plain(cut_number(v, n)),
        Reference::Storage(s) => Reference::Storage(s),
        Reference::Local(node, x, size) => Reference::Local(node, x, size),
        Reference::Memory(space, size, pointer, width) => {
            Reference::Memory(space, size, pointer, width)
        }
    }
}
