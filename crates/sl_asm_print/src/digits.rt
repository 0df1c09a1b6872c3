//! Numbers read back.

ghost use Rattle.std.specs.Prelude.{◌≡◌, ◌≤◌, ◌<◌, ◌^◌, ℕ, ℤ, pos, negsuc, suc, true, false};
ghost use Rattle.std.specs.Prelude.{IfOk, IfSome, Some};
ghost use Rattle.std.specs.Char.{digit_value};
ghost use Rattle.std.specs.Int.{w64};
ghost use Rattle.std.specs.Int.RustNames.{FitsSigned};
ghost use Rattle.std.specs.Str.Parse.{digits_value};
ghost use Rattle.sl_show.specs.Numbers.{number_text};

use sl_show::push_number;
use std::alloc::{AllocError, Global};

/// The value of a digit, or of a letter from 10 on; 36 of any other byte.
fn digit(byte: u8) -> u64
    ensures { result ≡ digit_value byte }
{
    match byte {
        b'0'..=b'9' => u64::from(byte - b'0'),
        b'A'..=b'Z' => u64::from(byte - b'A') + 10,
        b'a'..=b'z' => u64::from(byte - b'a') + 10,
        _ => 36,
    }
}

/// What digits of a base come to, where that has at most 64 bits.
fn number_of(base: u64, digits: &[u8]) -> u64
    requires { 1 ≤ base }
    ensures { digits_value base digits.now < 2 ^ 64 → result ≡ digits_value base digits.now }
{
    let mut number = 0u64;
    for byte in digits {
        let Some(shifted) = number.checked_mul(base) else {
            return 0;
        };
        let Some(more) = shifted.checked_add(digit(*byte)) else {
            return 0;
        };
        number = more;
    }
    number
}

/// The number, or the one below 0 with this magnitude; 0 where that doesn't have 64 bits.
fn signed(negative: bool, magnitude: u64) -> i64
    ensures above { negative ≡ false → magnitude < 2 ^ 63 → result ≡ pos magnitude }
    ensures below { (n : ℕ) → negative ≡ true → magnitude ≡ suc n → n < 2 ^ 63
        → result ≡ negsuc n }
{
    let whole = if negative {
        -i128::from(magnitude)
    } else {
        i128::from(magnitude)
    };
    match i64::try_from(whole) {
        Ok(value) => value,
        Err(_) => 0,
    }
}

/// The number that has the text, if it isn't below 0.
fn magnitude(dec: bool, text: &[u8]) -> u64
    ensures { (n : ℕ) → n < 2 ^ 64 → number_text dec (pos n) ≡ text.now → result ≡ n }
{
    if dec {
        return number_of(10, text);
    }
    match text {
        [b'0', b'x', digits @ ..] => number_of(16, digits),
        _ => 0,
    }
}

/// The number that has the text, where one has.
pub(crate) fn number_in(dec: bool, text: &[u8]) -> i64
    ensures { (v : ℤ) → FitsSigned w64 v → number_text dec v ≡ text.now → result ≡ v }
{
    let Some((first, rest)) = text.split_first() else {
        return 0;
    };
    if *first == b'-' {
        return signed(true, magnitude(dec, rest));
    }
    signed(false, magnitude(dec, text))
}

/// The number that is shown as the text, or `None` where none is. The only error is want of memory.
pub fn number_with(alloc: Global, dec: bool, text: &[u8]) -> Result<Option<i64>, AllocError>
    ensures all { IfOk result (λ found. (v : ℤ) → FitsSigned w64 v → number_text dec v ≡ text.now
        → found ≡ Some v) }
    ensures shown { IfOk result (λ found. IfSome found (λ v. number_text dec v ≡ text.now)) }
{
    let number = number_in(dec, text);
    let mut shown = Vec::new(alloc);
    push_number(&mut shown, dec, number)?;
    if shown.as_slice() == text {
        Ok(Some(number))
    } else {
        Ok(None)
    }
}
