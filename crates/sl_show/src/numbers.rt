//! Numbers as text.

ghost use Rattle.std.specs.Prelude.{◌≡◌, ◌<◌, ◌++◌, OnOk, false};
ghost use Rattle.std.specs.Fmt.{digit_glyph, digits};
ghost use Rattle.sl_show.specs.Numbers.{hex_text, number_text};

use itoa::Buffer;
use std::alloc::AllocError;

/// A digit in hexadecimal, in lower case.
fn glyph(digit: u64) -> u8
    requires { digit < 16 }
    ensures { result ≡ digit_glyph false digit }
{
    if digit < 10 {
        b'0' + digit as u8
    } else {
        b'a' + (digit - 10) as u8
    }
}

/// Appends a number in hexadecimal, without leading zeros.
fn push_digits(out: &mut Vec<u8>, number: u64) -> Result<(), AllocError>
    ensures { OnOk result (out.new.items ≡ out.old.items ++ digits 16 false number) }
{
    let mut buffer = [0; 16];
    let mut at = 15;
    let mut left = number;
    'digits: while left >= 16 {
        buffer[at] = glyph(left % 16);
        at -= 1;
        left /= 16;
    }
    buffer[at] = glyph(left);
    let (_, written) = buffer.split_at(at);
    out.extend_from_slice(written)?;
    Ok(())
}

/// Appends a number in hexadecimal, with `-` before the prefix where it is below 0.
fn push_hex(out: &mut Vec<u8>, number: i64) -> Result<(), AllocError>
    ensures { OnOk result (out.new.items ≡ out.old.items ++ hex_text number) }
{
    if number < 0 {
        out.extend_from_slice(b"-0x")?;
        push_digits(out, number.unsigned_abs())
    } else {
        out.extend_from_slice(b"0x")?;
        push_digits(out, number.unsigned_abs())
    }
}

/// Appends a number, in decimal for a `dec` field, else in hexadecimal. The only error is want of
/// memory.
pub fn push_number(out: &mut Vec<u8>, dec: bool, number: i64) -> Result<(), AllocError>
    ensures { OnOk result (out.new.items ≡ out.old.items ++ number_text dec number) }
{
    if dec {
        let mut buffer = Buffer::new();
        out.extend_from_slice(buffer.format(number).as_bytes())
    } else {
        push_hex(out, number)
    }
}
