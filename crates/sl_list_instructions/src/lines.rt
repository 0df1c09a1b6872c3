//! Lines of a listing, each appended to a buffer.

ghost use Rattle.std.specs.Prelude.{◌≡◌, ◌+◌, ◌*◌, ◌++◌, ◌≤◌, OnOk, codes, length, take};
ghost use Rattle.hex.specs.Hex.{encode_lower};
ghost use Rattle.sl_list_instructions.specs.Lines.{address_text, listed_line};

use sl_word::AddressSize;
use std::alloc::AllocError;

/// The most bytes that a line shows.
pub const MOST_BYTES: usize = 255;

/// A buffer for the digits of so many bytes is enough for most lines.
const FEW_BYTES: usize = 16;

/// The most bytes of a line's head that shows few bytes: the address, `: `, the bytes and a blank.
const FEW_HEAD: usize = 2 * 8 + 2 + 2 * FEW_BYTES + 1;

/// Appends a few bytes in hexadecimal, two digits each.
fn push_few(out: &mut Vec<u8>, bytes: &[u8]) -> Result<(), AllocError>
    requires { length bytes.now ≤ FEW_BYTES }
    ensures { OnOk result (out.new.items ≡ out.old.items ++ encode_lower bytes.now) }
{
    let mut buffer = [0; 2 * FEW_BYTES];
    let digits = &mut buffer[..2 * bytes.len()];
    hex::encode_to_slice(bytes, digits).unwrap();
    out.extend_from_slice(digits)
}

/// The same of as many bytes as a line shows.
fn push_many(out: &mut Vec<u8>, bytes: &[u8]) -> Result<(), AllocError>
    requires { length bytes.now ≤ MOST_BYTES }
    ensures { OnOk result (out.new.items ≡ out.old.items ++ encode_lower bytes.now) }
{
    let mut buffer = [0; 2 * MOST_BYTES];
    let digits = &mut buffer[..2 * bytes.len()];
    hex::encode_to_slice(bytes, digits).unwrap();
    out.extend_from_slice(digits)
}

/// Appends the bytes in hexadecimal, two digits each.
pub fn push_hex(out: &mut Vec<u8>, bytes: &[u8]) -> Result<(), AllocError>
    requires { length bytes.now ≤ MOST_BYTES }
    ensures { OnOk result (out.new.items ≡ out.old.items ++ encode_lower bytes.now) }
{
    if bytes.len() <= FEW_BYTES {
        push_few(out, bytes)
    } else {
        push_many(out, bytes)
    }
}

/// Appends an address in hexadecimal, with two digits for each of its bytes.
pub fn push_address(out: &mut Vec<u8>, size: AddressSize, address: u64) -> Result<(), AllocError>
    ensures { OnOk result (out.new.items ≡ out.old.items ++ address_text size.bytes address) }
{
    let bytes = address.to_be_bytes();
    push_hex(out, &bytes[8 - usize::from(size.get())..])
}

/// Writes bytes in hexadecimal into a line's head, from `at`, and gives the index after them.
fn put_digits(head: &mut [u8; FEW_HEAD], at: usize, bytes: &[u8]) -> usize
    requires { at + 2 * length bytes.now ≤ length head.old }
    ensures end { result ≡ at + 2 * length bytes.now }
    ensures digits { take result head.new ≡ take at head.old ++ encode_lower bytes.now }
{
    let end = at + 2 * bytes.len();
    hex::encode_to_slice(bytes, &mut head[at..end]).unwrap();
    end
}

/// Appends what comes before the text of a line that shows few bytes, in one piece.
fn push_head(
    out: &mut Vec<u8>,
    size: AddressSize,
    address: u64,
    shown: &[u8],
) -> Result<(), AllocError>
    requires { length shown.now ≤ FEW_BYTES }
    ensures { OnOk result (out.new.items
        ≡ out.old.items ++ (address_text size.bytes address
        ++ (codes ": " ++ (encode_lower shown.now ++ codes " ")))) }
{
    let mut head = [b' '; FEW_HEAD];
    let bytes = address.to_be_bytes();
    let colon = put_digits(&mut head, 0, &bytes[8 - usize::from(size.get())..]);
    head[colon] = b':';
    head[colon + 1] = b' ';
    let blank = put_digits(&mut head, colon + 2, shown);
    head[blank] = b' ';
    out.extend_from_slice(&head[..blank + 1])
}

/// Appends a line: an address, the bytes that are there, and what they are. Where memory runs out the
/// buffer may have a part of it.
pub fn push_listed(
    out: &mut Vec<u8>,
    size: AddressSize,
    address: u64,
    shown: &[u8],
    text: &[u8],
) -> Result<(), AllocError>
    requires { length shown.now ≤ MOST_BYTES }
    ensures { OnOk result (out.new.items
        ≡ out.old.items ++ listed_line size.bytes address shown.now text.now) }
{
    if shown.len() <= FEW_BYTES {
        push_head(out, size, address, shown)?;
    } else {
        push_address(out, size, address)?;
        out.extend_from_slice(b": ")?;
        push_hex(out, shown)?;
        out.extend_from_slice(b" ")?;
    }
    out.extend_from_slice(text)?;
    out.extend_from_slice(b"\n")
}
