//! Integers: where their digits stand, and the numbers that those spell.

ghost use Rattle.std.specs.Prelude.{◌≡◌, ◌<◌, ◌≤◌, ◌^◌, IfSome, IfNone, codes};
ghost use Rattle.sl_lex.specs.Bytes.{digit_value, number, is_digit, is_hex_digit, is_binary_digit};
ghost use Rattle.sl_lex.specs.Found.{IsLongestSpelled, IsLongestInteger};
ghost use Rattle.sl_lex.specs.Lexemes.{BeginsWith};

use crate::bytes::{count_binary_digits, count_digits, count_hex_digits};

fn digit_value(digit: u8) -> u8
    ensures { result ≡ digit_value digit }
{
    match digit {
        b'0'..=b'9' => digit - b'0',
        b'a'..=b'f' => digit - (b'a' - 10),
        _ => digit.saturating_sub(b'A' - 10),
    }
}

/// The number that digits spell in a base, unless it is above 2^64 - 1.
pub fn number(base: u64, digits: &[u8]) -> Option<u64>
    requires { 0 < base }
    ensures value { IfSome result (λ n. number base digits.now ≡ n) }
    ensures wide { IfNone result (2 ^ 64 ≤ number base digits.now) }
{
    let mut value: u64 = 0;
    for digit in digits {
        let unit = u64::from(digit_value(*digit));
        value = base.checked_mul(value)?.checked_add(unit)?;
    }
    Some(value)
}

/// How many hexadecimal digits stand behind `0x` at the front.
fn count_behind_0x(text: &[u8]) -> usize
    ensures { IsLongestSpelled (codes "0x") is_hex_digit text.now result }
{
    match text.strip_prefix(b"0x".as_slice()) {
        Some(digits) => count_hex_digits(digits),
        None => 0,
    }
}

/// How many binary digits stand behind `0b` at the front.
fn count_behind_0b(text: &[u8]) -> usize
    ensures { IsLongestSpelled (codes "0b") is_binary_digit text.now result }
{
    match text.strip_prefix(b"0b".as_slice()) {
        Some(digits) => count_binary_digits(digits),
        None => 0,
    }
}

/// The base of the integer at the front, how many bytes stand before its digits, and how many digits.
pub fn digits_of(text: &[u8]) -> (u64, usize, usize)
    requires { BeginsWith is_digit text.now }
    ensures { IsLongestInteger text.now result.0 result.1 result.2 }
{
    let hex = count_behind_0x(text);
    if hex > 0 {
        return (16, 2, hex);
    }
    let binary = count_behind_0b(text);
    if binary > 0 {
        return (2, 2, binary);
    }
    (10, 0, count_digits(text))
}
