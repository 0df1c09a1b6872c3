//! The codes of a field whose value stands in a relation to a number.

ghost use Rattle.std.specs.Prelude.{◌≡◌, ◌↔◌, ◌+◌, ◌-◌, ◌*◌, ◌<◌, ◌≤◌, ◌^◌, ℕ, pos, ◌+ℤ◌, false};
ghost use Rattle.sl_shape_blocks.specs.Blocks.{Satisfies};
ghost use Rattle.sl_shape_blocks.specs.Compare.{StandsAbove, AreUnsigned, AreSigned, AreStanding};
ghost use Rattle.sl_shape_blocks.specs.Compare.{agreed};

use super::Codes;

/// How a field's value is compared with a number.
#[derive(Clone, Copy, Debug, PartialEq, Eq)]
pub enum Relation {
    Equal,
    NotEqual,
    Less,
    LessEqual,
    Greater,
    GreaterEqual,
}

/// How far the number is above the least one of 64 bits.
fn above_least(number: i64) -> u64
    ensures { pos result ≡ number +ℤ pos (2 ^ 63) }
{
    (i128::from(number) + 9223372036854775808) as u64
}

/// The values in the relation to the number, of those from `least` to `greatest`, all told by how
/// far they are above the least number of 64 bits.
fn values_of(relation: Relation, number: u64, least: u64, greatest: u64) -> Codes
    ensures { (v : ℕ) → least ≤ v → v ≤ greatest
        → (Satisfies result v ↔ StandsAbove relation v number) }
{
    match relation {
        Relation::Equal => Codes {
            low: number,
            high: number,
            inside: true,
        },
        Relation::NotEqual => Codes {
            low: number,
            high: number,
            inside: false,
        },
        Relation::Less => Codes {
            low: number,
            high: greatest,
            inside: false,
        },
        Relation::LessEqual => Codes {
            low: least,
            high: number,
            inside: true,
        },
        Relation::Greater => Codes {
            low: least,
            high: number,
            inside: false,
        },
        Relation::GreaterEqual => Codes {
            low: number,
            high: greatest,
            inside: true,
        },
    }
}

/// The codes of an unsigned field whose values lie between the two.
fn unsigned(low: u64, high: u64) -> Codes
    ensures { (limit : ℕ) → AreUnsigned low high limit result }
{
    let zero = 9223372036854775808;
    if high < zero {
        return Codes {
            low: 1,
            high: 0,
            inside: true,
        };
    }
    Codes {
        low: low.saturating_sub(zero),
        high: high - zero,
        inside: true,
    }
}

/// The codes of a signed field whose values lie between the two; `half` of them are negative.
fn signed(low: u64, high: u64, half: u64) -> Codes
    requires half { half ≤ 2 ^ 63 }
    requires some { 0 < half }
    ensures { AreSigned low high half result }
{
    let least = 9223372036854775808 - half;
    let from = low.saturating_sub(least);
    let to = high.saturating_sub(least).min(half - 1 + half);
    if high < least || to < from {
        return Codes {
            low: 1,
            high: 0,
            inside: true,
        };
    }
    if to < half {
        return Codes {
            low: from + half,
            high: to + half,
            inside: true,
        };
    }
    if from >= half {
        return Codes {
            low: from - half,
            high: to - half,
            inside: true,
        };
    }
    Codes {
        low: to - half + 1,
        high: half - 1 + from,
        inside: false,
    }
}

/// Half the number of codes of a field.
fn half_of(size: u32) -> u64
    requires some { 1 ≤ size }
    requires most { size ≤ 64 }
    ensures { result ≡ 2 ^ (size - 1) }
{
    1 << (size - 1)
}

/// Whether the codes inside are meant, where the values inside are or are not.
fn agreed_inside(values: bool, codes: bool) -> bool
    ensures { result ≡ agreed values codes }
{
    if values { codes } else { !codes }
}

/// The codes of a field of `size` bits whose value stands in the relation to the number. The value
/// is in two's complement where the field is signed; one of 64 bits always counts as signed, since
/// numbers have 64 bits with a sign.
pub fn codes_of(relation: Relation, is_signed: bool, size: u32, number: i64) -> Codes
    requires some { 1 ≤ size }
    requires most { size ≤ 64 }
    requires unsigned { is_signed ≡ false → size ≤ 63 }
    ensures { AreStanding relation is_signed size number result }
{
    let zero = 9223372036854775808;
    let above = above_least(number);
    let half = half_of(size);
    if is_signed {
        let values = values_of(relation, above, zero - half, zero + (half - 1));
        let codes = signed(values.low, values.high, half);
        let inside = agreed_inside(values.inside, codes.inside);
        return Codes {
            low: codes.low,
            high: codes.high,
            inside,
        };
    }
    let values = values_of(relation, above, zero, zero + (half - 1 + half));
    let codes = unsigned(values.low, values.high);
    let inside = agreed_inside(values.inside, codes.inside);
    Codes {
        low: codes.low,
        high: codes.high,
        inside,
    }
}
