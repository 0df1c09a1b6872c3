//! Numbers as words of a command line.

ghost use Rattle.std.specs.Prelude.{◌≡◌, ◌≤◌};
ghost use Rattle.sl_tool_request.specs.Numbers.{begins_with_plus, negative, number_of, numeral};
ghost use Rattle.sl_tool_request.specs.Numbers.{value_of};

/// Whether a plus stands first, which `from_str_radix` takes and no number has.
fn begins_with_plus(digits: &str) -> bool
    ensures { result ≡ begins_with_plus digits.now }
{
    matches!(digits.as_bytes(), [b'+', ..])
}

/// The number that digits spell, of which there are some, if it has at most 64 bits.
fn numeral(digits: &str, radix: u32) -> Option<u64>
    requires least { 2 ≤ radix }
    requires greatest { radix ≤ 36 }
    ensures { result ≡ numeral radix digits.now }
{
    if begins_with_plus(digits) {
        return None;
    }
    u64::from_str_radix(digits, radix).ok()
}

/// A number: decimal digits, or `0x` and hexadecimal digits.
#[tactic(auto, unfolding(crate::specs::Numbers::number_of))]
pub fn number_of(word: &str) -> Option<u64>
    ensures { result ≡ number_of word.now }
{
    match word.strip_prefix("0x") {
        Some(digits) => numeral(digits, 16),
        None => numeral(word, 10),
    }
}

/// The largest magnitude of a negative value.
const MOST_NEGATIVE: u64 = 0x8000_0000_0000_0000;

/// The number below zero, if it is -2^63 or above.
fn negative(n: u64) -> Option<i128>
    ensures { result ≡ negative n }
{
    if n <= MOST_NEGATIVE {
        Some(-i128::from(n))
    } else {
        None
    }
}

/// The value of a context field: a number, or one with `-` before it.
#[tactic(auto, unfolding(crate::specs::Numbers::value_of))]
pub fn value_of(word: &str) -> Option<i128>
    ensures { result ≡ value_of word.now }
{
    match word.strip_prefix("-") {
        Some(digits) => negative(number_of(digits)?),
        None => Some(i128::from(number_of(word)?)),
    }
}
