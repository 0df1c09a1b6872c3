//! The line at the front of a listing's text.

ghost use Rattle.std.specs.Prelude.{◌≡◌, ◌≢◌, ℕ, ◌-◌, ◌^◌, ◌<◌, ◌≤◌, List, IfOk, IsFalse, IsTrue, MatchOption, Ok, drop, length, slice_index};
ghost use Rattle.hex.specs.Hex.{decode_sized};
ghost use Rattle.sl_asm_lines.specs.Fronts.{ReadsAddress, ReadsBytes, ReadsLine};
ghost use Rattle.sl_asm_lines.specs.Kept.{IsFrontKept};
ghost use Rattle.sl_asm_lines.specs.Reading.{BeginsWithNone};
ghost use Rattle.std.specs.Int.{to_be_bytes, w64};

use memchr::memchr;
use sl_list_instructions::{MOST_BYTES, put_line};
use sl_word::AddressSize;
use std::alloc::AllocError;

/// A line at the front of a text, but for its bytes.
#[derive(Clone, Copy)]
pub struct Front<'f> {
    pub address: u64,
    pub text: &'f [u8],
    /// How many bytes of the text it takes, with its line feed.
    pub length: usize,
}

/// Eight bytes, with these at their end and zeros before them.
fn behind_zeros(bytes: &[u8]) -> [u8; 8]
    requires { length bytes.now ≤ 8 }
    ensures zeros { (i : ℕ) → i < 8 - length bytes.now → slice_index result i ≡ 0 }
    ensures bytes { drop (8 - length bytes.now) result ≡ bytes.now }
{
    let mut whole = [0; 8];
    whole[8 - bytes.len()..].copy_from_slice(bytes);
    whole
}

/// The number that at most eight bytes make, the most significant first.
fn number_of(bytes: &[u8]) -> u64
    requires { length bytes.now ≤ 8 }
    ensures below { result < 256 ^ length bytes.now }
    ensures digits { drop (8 - length bytes.now) (to_be_bytes w64 result) ≡ bytes.now }
{
    u64::from_be_bytes(behind_zeros(bytes))
}

/// Fills a list with the bytes that digits of either case spell, if they are as many.
fn fill(digits: &[u8], bytes: &mut [u8]) -> bool
    ensures long { length bytes.new ≡ length bytes.old }
    ensures filled { IsTrue result → decode_sized digits.now (length bytes.new) ≡ Ok bytes.new }
    ensures refused { IsFalse result
        → (bs : List ℕ) → decode_sized digits.now (length bytes.new) ≢ Ok bs }
{
    hex::decode_to_slice(digits, bytes).is_ok()
}

/// The address that digits spell. Digits of either case do.
fn read_address(digits: &[u8], size: AddressSize) -> Option<u64>
    ensures { ReadsAddress size.bytes digits.now result }
{
    let mut bytes = [0; 8];
    let bytes = &mut bytes[..usize::from(size.bytes)];
    if fill(digits, bytes) {
        Some(number_of(bytes))
    } else {
        None
    }
}

/// Puts the bytes that digits spell in the place of what the buffer holds, if they are as many as a
/// line may show. Digits of either case do.
fn read_bytes(digits: &[u8], bytes: &mut Vec<u8>) -> Result<bool, AllocError>
    ensures { IfOk result (λ found. ReadsBytes digits.now bytes.new.items found) }
{
    bytes.clear();
    let count = digits.len() / 2;
    if count == 0 || count > MOST_BYTES {
        return Ok(false);
    }
    let mut buffer = [0; MOST_BYTES];
    let part = &mut buffer[..count];
    if !fill(digits, part) {
        return Ok(false);
    }
    bytes.extend_from_slice(part)?;
    Ok(true)
}

/// What a line is, if it is one: its address and its text, its bytes in the place of what the buffer
/// holds.
fn read_line<'f>(
    line: &'f [u8],
    size: AddressSize,
    bytes: &mut Vec<u8>,
) -> Result<Option<Front<'f>>, AllocError>
    requires { length line.now < 2 ^ 63 }
    ensures { IfOk result (λ found. ReadsLine size.bytes line.now bytes.new.items found) }
{
    let head = 2 * usize::from(size.bytes);
    if line.len() < head + 2 {
        return Ok(None);
    }
    let Some(address) = read_address(&line[..head], size) else {
        return Ok(None);
    };
    let rest = &line[head + 2..];
    let Some(blank) = memchr(b' ', rest) else {
        return Ok(None);
    };
    if !read_bytes(&rest[..blank], bytes)? {
        return Ok(None);
    }
    Ok(Some(Front {
        address,
        text: &rest[blank + 1..],
        length: line.len() + 1,
    }))
}

/// The line at the front of a text, if there is one, its bytes in the place of what the buffer holds.
/// `line` is a buffer, too. The only error is want of memory.
pub fn read_front<'f>(
    text: &'f [u8],
    size: AddressSize,
    bytes: &mut Vec<u8>,
    line: &mut Vec<u8>,
) -> Result<Option<Front<'f>>, AllocError>
    ensures { IfOk result (λ found. MatchOption found (BeginsWithNone size.bytes text.now)
        (λ f. IsFrontKept size.bytes text.now bytes.new.items f)) }
{
    let Some(end) = memchr(b'\n', text) else {
        return Ok(None);
    };
    let Some(front) = read_line(&text[..end], size, bytes)? else {
        return Ok(None);
    };
    put_line(line, size, front.address, bytes, front.text)?;
    if line.as_slice() != &text[..end + 1] {
        return Ok(None);
    }
    Ok(Some(front))
}
