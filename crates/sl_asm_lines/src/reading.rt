//! The text of a listing, read line by line.

ghost use Rattle.std.specs.Prelude.{◌≡◌, ◌≤◌, ◌↔◌, ◌+◌, ◌^◌, ◌∷◌, [], ◌++◌, List, length};
ghost use Rattle.std.specs.Prelude.{IfOk, IsFalse, IsTrue, MatchResult, OnOk};
ghost use Rattle.sl_asm_lines.specs.Fronts.{line_of};
ghost use Rattle.sl_asm_lines.specs.Kept.{AreKept, IsFault, IsKept};
ghost use Rattle.sl_asm_lines.specs.Lines.{Line as LineOf};
ghost use Rattle.sl_asm_lines.specs.Nexts.{IsFaultAfter, TakesLine, base_after};
ghost use Rattle.sl_asm_lines.specs.Reading.{CanFollow};

use crate::faults::{LineError, LineFault};
use crate::front::read_front;
use crate::listing::{EditedListing, ShownLine};
use sl_word::AddressSize;
use std::alloc::{AllocError, Global};

/// Whether the address is that after some bytes, which begin at the base, or there are no lines yet.
fn comes_after(first: bool, base: u64, shown: usize, address: u64) -> bool
    ensures none { IsTrue first → IsTrue result }
    ensures some { IsFalse first → (IsTrue result ↔ (address ≡ base + shown)) }
{
    first || u128::from(address) == u128::from(base) + shown as u128
}

/// Whether so many bytes from the address on lie in the space of addresses.
fn lie_in_space(size: AddressSize, address: u64, count: usize) -> bool
    ensures { IsTrue result ↔ (address + count ≤ 256 ^ size.bytes) }
{
    u128::from(address) + count as u128 <= 1 << (8 * u32::from(size.bytes))
}

/// Whether a line with so many bytes can have the address, after the lines that were read.
fn can_follow(listing: &EditedListing<'_>, size: AddressSize, address: u64, count: usize) -> bool
    ensures { (lines : List LineOf) (l : LineOf)
        → AreKept listing.now.image.items listing.now.lines.items lines → length l.bytes ≡ count
        → IsTrue result ↔ CanFollow size.bytes listing.now.base lines address l }
{
    let first = listing.lines.is_empty();
    comes_after(first, listing.base, listing.image.len(), address)
        && lie_in_space(size, address, count)
}

/// The address of the first line, where one with the address is added.
fn base_with(listing: &EditedListing<'_>, address: u64) -> u64
    ensures { (lines : List LineOf)
        → AreKept listing.now.image.items listing.now.lines.items lines
        → result ≡ base_after lines listing.now.base address }
{
    if listing.lines.is_empty() {
        return address;
    }
    listing.base
}

/// Adds a line to those that were read.
fn add_line<'f>(
    listing: &mut EditedListing<'f>,
    bytes: &[u8],
    text: &'f [u8],
) -> Result<(), AllocError>
    requires some { 1 ≤ length bytes.now }
    requires most { length bytes.now ≤ 255 }
    ensures base { listing.new.base ≡ listing.old.base }
    ensures kept { OnOk result ((lines : List LineOf)
        → AreKept listing.old.image.items listing.old.lines.items lines
        → AreKept listing.new.image.items listing.new.lines.items
        (lines ++ line_of bytes.now text.now ∷ [])) }
{
    let count = bytes.len() as u8;
    listing.image.extend_from_slice(bytes)?;
    listing.lines.push(ShownLine { count, text })?;
    Ok(())
}

/// Takes the next line from the front of the text that is left. The result is how many bytes of the
/// text it has, or why it can't be taken.
fn next_line<'f>(
    rest: &'f [u8],
    size: AddressSize,
    listing: &mut EditedListing<'f>,
    bytes: &mut Vec<u8>,
    line: &mut Vec<u8>,
) -> Result<Result<usize, LineFault>, AllocError>
    requires { 1 ≤ length rest.now }
    ensures { IfOk result (λ r. MatchResult r
        (λ count. TakesLine size.bytes rest.now listing.old listing.new count)
        (λ fault. (listing.new ≡ listing.old)
        × IsFaultAfter size.bytes rest.now listing.old fault)) }
{
    let Some(front) = read_front(rest, size, bytes, line)? else {
        return Ok(Err(LineFault::BadLine));
    };
    if !can_follow(listing, size, front.address, bytes.len()) {
        return Ok(Err(LineFault::BadAddress));
    }
    listing.base = base_with(listing, front.address);
    add_line(listing, bytes, front.text)?;
    Ok(Ok(front.length))
}

/// The lines of a listing's text, or the first of them that can't be read. The only error is want of
/// memory.
pub fn read_listing<'f>(
    alloc: Global,
    size: AddressSize,
    text: &'f [u8],
) -> Result<Result<EditedListing<'f>, LineError>, AllocError>
    ensures { IfOk result (λ r. MatchResult r (λ listing. IsKept size.bytes text.now listing)
        (λ e. IsFault size.bytes text.now e.number e.fault)) }
{
    let mut listing = EditedListing {
        base: 0,
        image: Vec::new(alloc),
        lines: Vec::new(alloc),
    };
    let mut bytes = Vec::new(alloc);
    let mut line = Vec::new(alloc);
    let mut at = 0;
    'lines: while at < text.len() {
        match next_line(&text[at..], size, &mut listing, &mut bytes, &mut line)? {
            Ok(count) => at += count,
            Err(fault) => {
                let number = listing.lines.len() + 1;
                return Ok(Err(LineError { number, fault }));
            }
        }
    }
    Ok(Ok(listing))
}
