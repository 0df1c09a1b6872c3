//! One page of an address space.

ghost use Rattle.std.specs.Prelude.{◌≡◌, ℕ, ◌+◌, ◌^◌, ◌<◌, ◌≤◌, vec_len, IfOk, slice_index, length};
ghost use Rattle.std.specs.Option.{option_map_or, option_copied};
ghost use Rattle.sl_word.specs.Layout.{byte_of, number_of};
ghost use Rattle.sl_word.specs.Runs.{with_run};

use crate::narrow::eight_at;
use crate::runs::{copy, overwrite};
use crate::{Endian, Narrow, Size, Word};
use std::alloc::{AllocError, Global};

pub(crate) const PAGE_LENGTH: u64 = 4096;

/// The bytes of one page.
#[derive(Drop)]
pub(crate) struct Page {
    pub(crate) bytes: Vec<u8>,
    ghost whole: { vec_len bytes ≡ 4096 },
}

impl Page {
    pub(crate) fn zeros(alloc: Global) -> Result<Page, AllocError>
        ensures { IfOk result (λ page. (place : ℕ) → slice_index page.bytes.items place ≡ 0) }
    {
        let bytes = vec![in alloc; 0; PAGE_LENGTH as usize]?;
        Ok(Page { bytes })
    }

    // Puts `count` bytes, from the one at `from` on, at a place.
    pub(crate) fn put(&mut self, place: usize, bytes: &[u8], from: usize, count: usize)
        requires inside { place + count ≤ 4096 }
        requires there { from + count ≤ length bytes.now }
        ensures { (k : ℕ) → slice_index self.new.bytes.items k
            ≡ with_run place from count (slice_index bytes.now) (slice_index self.old.bytes.items) k }
    {
        copy(&mut self.bytes, place, bytes, from, count);
    }

    // Puts the bytes of a word at a place.
    pub(crate) fn put_narrow(&mut self, place: usize, endian: Endian, word: Narrow)
        requires { place + word.size.bytes ≤ 4096 }
        ensures { (k : ℕ) → slice_index self.new.bytes.items k
            ≡ with_run place 0 word.size.bytes (byte_of endian word.size.bytes word.bits) (slice_index self.old.bytes.items) k }
    {
        let count = usize::from(word.size.bytes);
        match endian {
            Endian::Little => overwrite(&mut self.bytes, place, &word.least_first(), 0, count),
            Endian::Big => overwrite(&mut self.bytes, place, &word.most_first(), 0, count),
        }
    }

    // Copies `count` bytes, from the one at a place on, to a place of a buffer.
    pub(crate) fn copy_to(&self, place: usize, out: &mut [u8], to: usize, count: usize)
        requires inside { place + count ≤ 4096 }
        requires there { to + count ≤ length out.old }
        ensures length { length out.new ≡ length out.old }
        ensures bytes { (k : ℕ) → slice_index out.new k
            ≡ with_run to place count (slice_index self.now.bytes.items) (slice_index out.old) k }
    {
        let run = &self.bytes[place..place + count];
        out[to..to + count].copy_from_slice(run);
    }

    // The number that the bytes from a place on make.
    pub(crate) fn number(&self, place: usize, endian: Endian, size: Size) -> u128
        requires { place + size.bytes ≤ 4096 }
        ensures value { result ≡ number_of endian (λ i. slice_index self.now.bytes.items (place + i)) size.bytes }
        ensures below { result < 256 ^ size.bytes }
    {
        let end = place + usize::from(size.bytes);
        Word::from_bytes(endian, size, &self.bytes[place..end]).bits
    }

    // The word of at most 8 bytes from a place on, where the page has 8 bytes from there on.
    pub(crate) fn narrow(&self, place: usize, endian: Endian, size: Size) -> Narrow
        requires narrow { size.bytes ≤ 8 }
        requires inside { place + 8 ≤ 4096 }
        ensures size { result.size ≡ size }
        ensures value { result.bits ≡ number_of endian (λ i. slice_index self.now.bytes.items (place + i)) size.bytes }
    {
        Narrow::from_first(endian, size, eight_at(&self.bytes, place))
    }
}

pub(crate) fn byte_of_page(page: Option<&Page>, place: u64) -> u8
    requires { place < 4096 }
    ensures { result ≡ option_map_or (λ one. slice_index one.bytes.items place) (option_copied page.entry) 0 }
{
    match page {
        Some(page) => page.bytes[place as usize],
        None => 0,
    }
}
