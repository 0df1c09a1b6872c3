//! The values of fields.

ghost use Rattle.std.specs.Prelude.{◌≡◌, ◌+◌, ◌-◌, ◌/◌, ◌^◌, ◌<◌, ◌≤◌, suc, true};
ghost use Rattle.std.specs.Prelude.{length, option_copied, slice_get, take, drop, IfSome};
ghost use Rattle.sl_spec.specs.FieldValues.{LiesWithin, field_value};
ghost use Rattle.sl_spec.specs.FieldValues.{bits_of, number_in, signed_of, value_of};
ghost use Rattle.sl_spec.specs.FieldValues.{token_integer, token_of};

use crate::definitions::{Field, Token};
use crate::ids::FieldId;
use crate::tables::Tables;
use sl_word::Endian;

/// The number that bytes stand for, the first the least significant.
fn from_least(bytes: &[u8]) -> u64
    requires { length bytes.now ≤ 8 }
    ensures { result ≡ token_integer Endian.Little bytes.now }
{
    let mut number = 0;
    'bytes: for index in 0..bytes.len() {
        number = number * 256 + u64::from(bytes[bytes.len() - 1 - index]);
    }
    number
}

/// The number that bytes stand for, the first the most significant.
fn from_greatest(bytes: &[u8]) -> u64
    requires { length bytes.now ≤ 8 }
    ensures { result ≡ token_integer Endian.Big bytes.now }
{
    let mut number = 0;
    'bytes: for index in 0..bytes.len() {
        number = number * 256 + u64::from(bytes[index]);
    }
    number
}

/// The greatest number of so many bits.
fn greatest(width: u8) -> u64
    requires some { 1 ≤ width }
    requires most { width ≤ 64 }
    ensures { result + 1 ≡ 2 ^ width }
{
    u64::MAX >> (64 - width)
}

/// The number that `width` bits are in two's complement.
fn signed(width: u8, bits: u64) -> i64
    requires some { 1 ≤ width }
    requires most { width ≤ 64 }
    requires within { bits < 2 ^ width }
    ensures { result ≡ signed_of width bits }
{
    let greatest = greatest(width);
    if bits > greatest / 2 {
        !((greatest - bits) as i64)
    } else {
        bits as i64
    }
}

impl Token<'_> {
    /// The token's integer, where it stands at a place in bytes.
    pub fn number_at(&self, bytes: &[u8], at: usize) -> u64
        requires { at + self.now.bits / 8 ≤ length bytes.now }
        ensures { result
            ≡ token_integer self.now.endian (take (self.now.bits / 8) (drop at bytes.now)) }
    {
        let bytes = &bytes[at..at + usize::from(self.bits / 8)];
        match self.endian {
            Endian::Little => from_least(bytes),
            Endian::Big => from_greatest(bytes),
        }
    }
}

impl Field<'_> {
    /// How many bits the field has.
    pub fn width(&self) -> u8
        ensures value { result ≡ suc self.now.high - self.now.low }
        ensures some { 1 ≤ result }
        ensures most { result ≤ 64 }
    {
        self.high - self.low + 1
    }

    /// The field's bits in a token's integer or the context, as an unsigned number.
    pub fn bits_of(&self, number: u64) -> u64
        ensures value { result ≡ bits_of self.now.low self.now.high number }
        ensures within { result < 2 ^ (suc self.now.high - self.now.low) }
    {
        number >> self.low & greatest(self.width())
    }

    /// The field's value, where its token's integer, or the context, is this number.
    pub fn value_of(&self, number: u64) -> i64
        ensures { result ≡ value_of self.now number }
    {
        let bits = self.bits_of(number);
        if self.signed {
            signed(self.width(), bits)
        } else {
            bits.cast_signed()
        }
    }
}

/// The token of a field; none for a field of the context.
fn token_of<'t, 'a>(t: &'t Tables<'a>, of: &Field) -> Option<&'t Token<'a>>
    ensures { option_copied result ≡ token_of t.now.tokens of.now }
{
    match of.token {
        Some(token) => t.tokens.at(token as usize),
        None => None,
    }
}

/// The number that a field's bits are read from: its token's integer, or the context.
fn number_in(t: &Tables, of: &Field, bytes: &[u8], at: usize, context: u64) -> u64
    requires { LiesWithin (token_of t.now.tokens of.now) at (length bytes.now) }
    ensures { result ≡ number_in (token_of t.now.tokens of.now) (drop at bytes.now) context }
{
    match token_of(t, of) {
        Some(token) => token.number_at(bytes, at),
        None => context,
    }
}

/// The value of a field in 64-bit two's complement. A field of a token reads it from the bytes, its
/// token beginning at the index `at`; a field of the context reads the context.
pub fn field_value(t: &Tables, field: FieldId, bytes: &[u8], at: usize, context: u64) -> i64
    requires defined { field < length t.now.fields }
    requires within { IfSome (slice_get t.now.fields field)
        (λ f. LiesWithin (token_of t.now.tokens f) at (length bytes.now)) }
    ensures { IfSome (slice_get t.now.fields field)
        (λ f. result ≡ field_value t.now.tokens f bytes.now at context) }
{
    let of = t.fields.member(field.number() as usize);
    of.value_of(number_in(t, of, bytes, at, context))
}
