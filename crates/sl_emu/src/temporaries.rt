//! The temporary bytes of runs.

ghost use Rattle.std.specs.Prelude.{◌≡◌, ℕ, ◌+◌, ◌/◌, ◌%◌, ◌^◌, ◌<◌, ◌≤◌, [], ◌∷◌, false, length, slice_get, slice_index, OnOk};
ghost use Rattle.std.specs.Prelude.{IfSome, Some, Vec};
ghost use Rattle.sl_word.specs.Layout.{byte_of, number_of};
ghost use Rattle.sl_pcode.specs.Machine.{with_temporaries};
ghost use Rattle.sl_emu.specs.Blocks.{bytes_in};

use sl_word::{Endian, Narrow, Size, Word, eight_at, overwrite};
use std::alloc::{AllocError, Global};

// So many offsets have a buffer of their own.
const BLOCK: u64 = 1 << 20;

// So many buffers keep their memory from one run to the next, those that are no longer than this.
const KEPT: usize = 64;

const KEPT_LENGTH: usize = 4096;

/// Temporary bytes by their offsets, which are below 2^32, all 0 at first.
///
/// Each 2^20 offsets have a buffer that grows as it is written, since a list has those of each node
/// of its instruction from a multiple of 2^20 on. The first 64 buffers are kept from one run to the
/// next, with zeros in them, where they are no longer than 4,096 bytes.
#[derive(Drop)]
pub struct Temporaries {
    alloc: Global,
    endian: Endian,
    blocks: Vec<Vec<u8>>,
    written: bool,
    ghost blank: { written ≡ false → (offset : ℕ) → bytes_in blocks.items offset ≡ 0 },
}

#[tactic(auto, unfolding(crate::specs::Temporaries::temporary_bytes, crate::specs::Temporaries::order_of))]
impl Temporaries {
    ghost use Rattle.sl_emu.specs.Temporaries.{order_of, temporary_bytes};

    /// Temporary bytes for runs. They take no memory until one is written.
    pub fn new(alloc: Global) -> Temporaries
        ensures zero { temporary_bytes result ≡ λ offset. 0 }
    {
        Temporaries {
            alloc,
            endian: Endian::Little,
            blocks: Vec::new(alloc),
            written: false,
        }
    }

    // All bytes become 0, of numbers in this order of bytes.
    pub(crate) fn clear(&mut self, endian: Endian)
        ensures order { order_of self.new ≡ endian }
        ensures zero { temporary_bytes self.new ≡ λ offset. 0 }
    {
        self.endian = endian;
        if self.written {
            self.blocks.truncate(KEPT);
            clear_all(self.alloc, &mut self.blocks);
            self.written = false;
        }
    }

    // The number that the bytes from an offset on make.
    pub(crate) fn read(&self, offset: u64, size: Size) -> Word
        requires { offset + size.bytes ≤ 2 ^ 32 }
        ensures size { result.size ≡ size }
        ensures value { result.bits ≡ number_of (order_of self.now) (λ i. temporary_bytes self.now (offset + i)) size.bytes }
    {
        word_at(&self.blocks, self.endian, offset, size)
    }

    // The same, of at most 8 bytes.
    pub(crate) fn read_narrow(&self, offset: u64, size: Size) -> Narrow
        requires range { offset + size.bytes ≤ 2 ^ 32 }
        requires narrow { size.bytes ≤ 8 }
        ensures size { result.size ≡ size }
        ensures value { result.bits ≡ number_of (order_of self.now) (λ i. temporary_bytes self.now (offset + i)) size.bytes }
    {
        narrow_at(&self.blocks, self.endian, offset, size)
    }

    // Puts the bytes of a word from an offset on.
    pub(crate) fn write(&mut self, offset: u64, word: Word) -> Result<(), AllocError>
        requires { offset + word.size.bytes ≤ 2 ^ 32 }
        ensures order { order_of self.new ≡ order_of self.old }
        ensures put { OnOk result (temporary_bytes self.new
            ≡ with_temporaries offset word.size.bytes (byte_of (order_of self.old) word.size.bytes word.bits) (temporary_bytes self.old)) }
    {
        let whole = word.in_memory(self.endian);
        self.put(offset, &whole[..usize::from(word.size.get())])
    }

    // The same, of at most 8 bytes.
    pub(crate) fn write_narrow(&mut self, offset: u64, word: Narrow) -> Result<(), AllocError>
        requires { offset + word.size.bytes ≤ 2 ^ 32 }
        ensures order { order_of self.new ≡ order_of self.old }
        ensures put { OnOk result (temporary_bytes self.new
            ≡ with_temporaries offset word.size.bytes (byte_of (order_of self.old) word.size.bytes word.bits) (temporary_bytes self.old)) }
    {
        let whole = word.in_memory(self.endian);
        self.put(offset, &whole[..usize::from(word.size.get())])
    }

    // Puts bytes from an offset on.
    fn put(&mut self, offset: u64, bytes: &[u8]) -> Result<(), AllocError>
        requires few { length bytes.now ≤ 16 }
        requires near { offset + length bytes.now ≤ 2 ^ 32 }
        ensures order { order_of self.new ≡ order_of self.old }
        ensures put { OnOk result ((o : ℕ) → temporary_bytes self.new o
            ≡ with_temporaries offset (length bytes.now) (slice_index bytes.now) (temporary_bytes self.old) o) }
    {
        self.written = true;
        put_run(self.alloc, &mut self.blocks, offset, bytes)
    }
}

// Makes all bytes of blocks 0.
fn clear_all(alloc: Global, blocks: &mut [Vec<u8>])
    ensures { (offset : ℕ) → bytes_in blocks.new offset ≡ 0 }
{
    'blocks: for index in 0..blocks.len() {
        clear_block(alloc, &mut blocks[index]);
    }
}

// Makes all bytes of a block 0. A long one is let go.
fn clear_block(alloc: Global, block: &mut Vec<u8>)
    ensures { (place : ℕ) → slice_index block.new.items place ≡ 0 }
{
    if KEPT_LENGTH < block.len() {
        *block = Vec::new(alloc);
    }
    block.as_mut_slice().fill(0);
}

fn byte_at(blocks: &[Vec<u8>], offset: u64) -> u8
    ensures { result ≡ bytes_in blocks.now offset }
{
    match blocks.get((offset / BLOCK) as usize) {
        Some(block) => block.get((offset % BLOCK) as usize).copied().unwrap_or(0),
        None => 0,
    }
}

// The word that the bytes from an offset on make.
fn word_at(blocks: &[Vec<u8>], endian: Endian, offset: u64, size: Size) -> Word
    requires { offset + size.bytes ≤ 2 ^ 32 }
    ensures size { result.size ≡ size }
    ensures value { result.bits ≡ number_of endian (λ i. bytes_in blocks.now (offset + i)) size.bytes }
{
    let count = usize::from(size.get());
    match in_block(blocks, offset, count) {
        Some(bytes) => Word::from_bytes(endian, size, bytes),
        None => {
            let whole = front_of(blocks, offset);
            Word::from_bytes(endian, size, &whole[..count])
        }
    }
}

// The same, of at most 8 bytes.
fn narrow_at(blocks: &[Vec<u8>], endian: Endian, offset: u64, size: Size) -> Narrow
    requires range { offset + size.bytes ≤ 2 ^ 32 }
    requires narrow { size.bytes ≤ 8 }
    ensures size { result.size ≡ size }
    ensures value { result.bits ≡ number_of endian (λ i. bytes_in blocks.now (offset + i)) size.bytes }
{
    if let Some(bytes) = in_block(blocks, offset, 8) {
        return Narrow::from_first(endian, size, eight_at(bytes, 0));
    }
    let bits = word_at(blocks, endian, offset, size).bits as u64;
    Narrow { bits, size }
}

// The bytes from an offset on, where all of them are there in one block.
fn in_block(blocks: &[Vec<u8>], offset: u64, count: usize) -> Option<&[u8]>
    requires { count ≤ 16 }
    ensures { IfSome result (λ bytes. (length bytes.now ≡ count)
        × ((i : ℕ) → i < count → slice_index bytes.now i ≡ bytes_in blocks.now (offset + i))) }
{
    let block = blocks.get((offset / BLOCK) as usize)?;
    let place = (offset % BLOCK) as usize;
    if place + count > BLOCK as usize {
        return None;
    }
    block.get(place..place + count)
}

// The 16 bytes from an offset on.
fn front_of(blocks: &[Vec<u8>], offset: u64) -> [u8; 16]
    requires { offset ≤ 2 ^ 32 }
    ensures { (i : ℕ) → i < 16 → slice_index result i ≡ bytes_in blocks.now (offset + i) }
{
    let mut whole = [0; 16];
    'bytes: for place in 0..16usize {
        whole[place] = byte_at(blocks, offset + place as u64);
    }
    whole
}

// Puts bytes from an offset on.
fn put_run(
    alloc: Global,
    blocks: &mut Vec<Vec<u8>>,
    offset: u64,
    bytes: &[u8],
) -> Result<(), AllocError>
    requires few { length bytes.now ≤ 16 }
    requires near { offset + length bytes.now ≤ 2 ^ 32 }
    ensures { OnOk result ((o : ℕ) → bytes_in blocks.new.items o
        ≡ with_temporaries offset (length bytes.now) (slice_index bytes.now) (bytes_in blocks.old.items) o) }
{
    let room = (BLOCK - offset % BLOCK) as usize;
    if bytes.len() <= room {
        return put_in_block(alloc, blocks, offset, bytes);
    }
    let (front, back) = bytes.split_at(room);
    put_in_block(alloc, blocks, offset, front)?;
    put_in_block(alloc, blocks, offset + room as u64, back)?;
    Ok(())
}

// Puts bytes that end in the block of the first.
fn put_in_block(
    alloc: Global,
    blocks: &mut Vec<Vec<u8>>,
    offset: u64,
    bytes: &[u8],
) -> Result<(), AllocError>
    requires near { offset ≤ 2 ^ 32 }
    requires room { offset % 1048576 + length bytes.now ≤ 1048576 }
    ensures { OnOk result ((o : ℕ) → bytes_in blocks.new.items o
        ≡ with_temporaries offset (length bytes.now) (slice_index bytes.now) (bytes_in blocks.old.items) o) }
{
    let number = (offset / BLOCK) as usize;
    add_blocks(alloc, blocks, number)?;
    put_bytes(&mut blocks[number], (offset % BLOCK) as usize, bytes)
}

// Makes a block of this number, and those before it, where there are fewer.
fn add_blocks(alloc: Global, blocks: &mut Vec<Vec<u8>>, number: usize) -> Result<(), AllocError>
    requires { number ≤ 4096 }
    ensures there { OnOk result (number < length blocks.new.items) }
    ensures same { (o : ℕ) → bytes_in blocks.new.items o ≡ bytes_in blocks.old.items o }
{
    while blocks.len() <= number {
        blocks.push(Vec::new(alloc))?;
    }
    Ok(())
}

// Puts bytes at a place of a block, which grows to hold them.
fn put_bytes(block: &mut Vec<u8>, place: usize, bytes: &[u8]) -> Result<(), AllocError>
    requires { place + length bytes.now ≤ 1048576 }
    ensures { OnOk result ((o : ℕ) → slice_index block.new.items o
        ≡ with_temporaries place (length bytes.now) (slice_index bytes.now) (slice_index block.old.items) o) }
{
    reach(block, place + bytes.len())?;
    put_over(block.as_mut_slice(), place, bytes);
    Ok(())
}

// Puts bytes over others.
fn put_over(block: &mut [u8], place: usize, bytes: &[u8])
    requires { place + length bytes.now ≤ length block.old }
    ensures length { length block.new ≡ length block.old }
    ensures put { (o : ℕ) → slice_index block.new o
        ≡ with_temporaries place (length bytes.now) (slice_index bytes.now) (slice_index block.old) o }
{
    overwrite(block, place, bytes, 0, bytes.len());
}

// Makes a block at least `end` bytes long, with zeros.
fn reach(block: &mut Vec<u8>, end: usize) -> Result<(), AllocError>
    requires near { end ≤ 1048576 }
    ensures long { OnOk result (end ≤ length block.new.items) }
    ensures same { (o : ℕ) → slice_index block.new.items o ≡ slice_index block.old.items o }
{
    if block.len() < end {
        block.resize((2 * end + 16).min(BLOCK as usize), 0)?;
    }
    Ok(())
}
