//! One address space: bytes by their offsets, in pages.

ghost use Rattle.std.specs.Prelude.{◌≡◌, ℕ, ◌+◌, ◌*◌, ◌/◌, ◌%◌, ◌^◌, ◌<◌, ◌≤◌, ◌==◌, if◌then◌else◌};
ghost use Rattle.std.specs.Prelude.{false, length, slice_index, IsTrue, IfSome, OnOk, OnErr, ◌⊎◌};
ghost use Rattle.sl_word.specs.Layout.{Puts, byte_of, number_of, little_endian, big_endian};

use crate::page::{PAGE_LENGTH, byte_of_page};
use crate::pages::Pages;
use crate::{AddressSize, Endian, Narrow, Size, Word};
use std::alloc::{AllocError, Global};

/// Bytes by their offsets; what has no page is 0.
#[derive(Drop)]
pub(crate) struct Space {
    size: AddressSize,
    pages: Pages,
}

impl Space {
    ghost use Rattle.sl_word.specs.Pages.{byte_in, byte_after, HasPage, HasPages, HasPagesOf, IsInOnePage};
    ghost use Rattle.sl_word.specs.Runs.{with_run};
    ghost use Rattle.sl_word.specs.Differences.{IsFirstDifference, IsFirstPage};

    pub(crate) fn new(alloc: Global, size: AddressSize) -> Space
        ensures size { result.size ≡ size }
        ensures zero { (offset : ℕ) → byte_in result offset ≡ 0 }
    {
        let pages = Pages::new(alloc);
        Space { size, pages }
    }

    pub(crate) fn byte(&self, offset: u64) -> u8
        ensures { result ≡ byte_in self.now offset }
    {
        let number = offset / PAGE_LENGTH;
        let place = (offset % PAGE_LENGTH) as usize;
        match self.pages.page(number) {
            Some(page) => page.bytes[place],
            None => 0,
        }
    }

    // Some offset after the base, round the end of the space.
    fn address(&self, base: u64, after: u64) -> u64
        ensures { result ≡ (base + after) % 256 ^ self.now.size.bytes }
    {
        base.wrapping_add(after) & self.last()
    }

    // The greatest offset.
    fn last(&self) -> u64
        ensures { result + 1 ≡ 256 ^ self.now.size.bytes }
    {
        u64::MAX >> (64 - 8 * u32::from(self.size.bytes))
    }

    fn byte_after(&self, base: u64, place: u8) -> u8
        ensures { result ≡ byte_after self.now base place }
    {
        self.byte(self.address(base, u64::from(place)))
    }

    fn add_page(&mut self, number: u64) -> Result<(), AllocError>
        ensures size { self.new.size ≡ self.old.size }
        ensures same { (offset : ℕ) → byte_in self.new offset ≡ byte_in self.old offset }
        ensures there { OnOk result (HasPage self.new number) }
        ensures stay { (other : ℕ) → HasPage self.old other → HasPage self.new other }
    {
        self.pages.add(number)
    }

    // Puts `count` bytes, from the one at `from` on, at an offset of one page, if it is there. Whether it
    // is.
    fn set_run(&mut self, offset: u64, bytes: &[u8], from: usize, count: usize) -> bool
        requires inside { offset % 4096 + count ≤ 4096 }
        requires there { from + count ≤ length bytes.now }
        ensures size { self.new.size ≡ self.old.size }
        ensures found { HasPage self.old (offset / 4096) → IsTrue result }
        ensures bytes { IsTrue result → (other : ℕ) → byte_in self.new other
            ≡ with_run offset from count (slice_index bytes.now) (byte_in self.old) other }
        ensures unchanged { result ≡ false → (other : ℕ) → byte_in self.new other ≡ byte_in self.old other }
        ensures stay { (other : ℕ) → HasPage self.old other → HasPage self.new other }
    {
        let number = offset / PAGE_LENGTH;
        let place = (offset % PAGE_LENGTH) as usize;
        self.pages.put(number, place, bytes, from, count)
    }

    // The offset of `count` bytes from a base on, where they lie in one page, before the end of the space.
    fn in_one_page(&self, base: u64, count: u64) -> Option<u64>
        requires { count ≤ 16 }
        ensures { IfSome result (IsInOnePage self.now base count) }
    {
        let last = self.last();
        let offset = base & last;
        if offset % PAGE_LENGTH + count > last % PAGE_LENGTH + 1 {
            return None;
        }
        Some(offset)
    }

    fn add_pages(&mut self, base: u64, count: u64) -> Result<(), AllocError>
        ensures size { self.new.size ≡ self.old.size }
        ensures same { (offset : ℕ) → byte_in self.new offset ≡ byte_in self.old offset }
        ensures there { OnOk result (HasPages self.new base count) }
    {
        for after in 0..count {
            let number = self.address(base, after) / PAGE_LENGTH;
            self.add_page(number)?;
        }
        Ok(())
    }

    // Puts the first `count` bytes one by one, round the end of the space.
    fn set_each(&mut self, base: u64, bytes: &[u8], count: usize)
        requires few { count ≤ 16 }
        requires there { count ≤ length bytes.now }
        requires pages { HasPages self.old base count }
        ensures size { self.new.size ≡ self.old.size }
        ensures put { Puts (256 ^ self.old.size.bytes) base count (slice_index bytes.now) (byte_in self.old) (byte_in self.new) }
    {
        for place in 0..count {
            let offset = self.address(base, place as u64);
            self.set_run(offset, bytes, place, 1);
        }
    }

    // Adds the pages of `count` bytes from a base on.
    fn add_pages_of(&mut self, base: u64, count: u64) -> Result<(), AllocError>
        requires { base + count ≤ 2 ^ 64 }
        ensures size { self.new.size ≡ self.old.size }
        ensures same { (offset : ℕ) → byte_in self.new offset ≡ byte_in self.old offset }
        ensures there { OnOk result (HasPagesOf self.new base count) }
    {
        if count == 0 {
            return Ok(());
        }
        let first = base / PAGE_LENGTH;
        let last = (base + (count - 1)) / PAGE_LENGTH;
        for after in 0..last - first + 1 {
            self.add_page(first + after)?;
        }
        Ok(())
    }

    // Puts bytes, page by page. They end at or before the end of the space.
    fn set_bytes(&mut self, base: u64, bytes: &[u8])
        requires pages { HasPagesOf self.old base (length bytes.now) }
        requires room { base + length bytes.now ≤ 256 ^ self.old.size.bytes }
        ensures size { self.new.size ≡ self.old.size }
        ensures put { Puts (256 ^ self.old.size.bytes) base (length bytes.now) (slice_index bytes.now) (byte_in self.old) (byte_in self.new) }
    {
        let mut done = 0;
        'runs: while done < bytes.len() {
            let offset = base + done as u64;
            let in_page = (PAGE_LENGTH - offset % PAGE_LENGTH) as usize;
            let count = in_page.min(bytes.len() - done);
            self.set_run(offset, bytes, done, count);
            done += count;
        }
    }

    // The first offset from `from` to the end of its page at which the bytes differ.
    fn difference_in_page(&self, opening: &Space, from: u64) -> Option<u64>
        ensures { IsFirstDifference (byte_in opening.now) (byte_in self.now) from ((from / 4096 + 1) * 4096) result }
    {
        let number = from / PAGE_LENGTH;
        let before = opening.pages.page(number);
        let now = self.pages.page(number);
        for place in from % PAGE_LENGTH..PAGE_LENGTH {
            if byte_of_page(before, place) != byte_of_page(now, place) {
                return Some(number * PAGE_LENGTH + place);
            }
        }
        None
    }

    // The least number of a page that isn't below this one.
    fn page_from(&self, number: u64) -> Option<u64>
        ensures { IsFirstPage (HasPage self.now) number result }
    {
        self.pages.first_from(number)
    }

    // The same of a page of either space.
    fn either_page_from(&self, opening: &Space, number: u64) -> Option<u64>
        ensures { IsFirstPage (λ k. HasPage opening.now k ⊎ HasPage self.now k) number result }
    {
        match (opening.page_from(number), self.page_from(number)) {
            (Some(before), Some(now)) => Some(before.min(now)),
            (before, None) => before,
            (None, now) => now,
        }
    }

    // The first offset that isn't below `from` at which the bytes differ.
    pub(crate) fn next_difference(&self, opening: &Space, from: u64) -> Option<u64>
        ensures { IsFirstDifference (byte_in opening.now) (byte_in self.now) from (2 ^ 64) result }
    {
        let mut start = from;
        'pages: loop {
            if let Some(offset) = self.difference_in_page(opening, start) {
                return Some(offset);
            }
            let number = self.either_page_from(opening, start / PAGE_LENGTH + 1)?;
            start = number.checked_mul(PAGE_LENGTH)?;
        }
    }

    // Puts the bytes of a word in memory order. A refusal changes no byte.
    pub(crate) fn write(&mut self, base: u64, endian: Endian, word: Word) -> Result<(), AllocError>
        ensures size { self.new.size ≡ self.old.size }
        ensures put { OnOk result (Puts (256 ^ self.old.size.bytes) base word.size.bytes (byte_of endian word.size.bytes word.bits) (byte_in self.old) (byte_in self.new)) }
        ensures unchanged { OnErr result ((offset : ℕ) → byte_in self.new offset ≡ byte_in self.old offset) }
    {
        let whole = word.in_memory(endian);
        self.put(base, &whole, usize::from(word.size.bytes))
    }

    // The same, of at most 8 bytes.
    pub(crate) fn write_narrow(
        &mut self,
        base: u64,
        endian: Endian,
        word: Narrow,
    ) -> Result<(), AllocError>
        ensures size { self.new.size ≡ self.old.size }
        ensures put { OnOk result (Puts (256 ^ self.old.size.bytes) base word.size.bytes (byte_of endian word.size.bytes word.bits) (byte_in self.old) (byte_in self.new)) }
        ensures unchanged { OnErr result ((offset : ℕ) → byte_in self.new offset ≡ byte_in self.old offset) }
    {
        if self.write_listed(base, endian, word) {
            return Ok(());
        }
        self.write(base, endian, word.word())
    }

    // The same, where 8 bytes from the base on lie in one page that is listed. Whether they do.
    fn write_listed(&mut self, base: u64, endian: Endian, word: Narrow) -> bool
        ensures size { self.new.size ≡ self.old.size }
        ensures put { IsTrue result → Puts (256 ^ self.old.size.bytes) base word.size.bytes (byte_of endian word.size.bytes word.bits) (byte_in self.old) (byte_in self.new) }
        ensures unchanged { result ≡ false → (offset : ℕ) → byte_in self.new offset ≡ byte_in self.old offset }
    {
        let Some(offset) = self.in_one_page(base, 8) else {
            return false;
        };
        let number = offset / PAGE_LENGTH;
        let place = (offset % PAGE_LENGTH) as usize;
        self.pages.put_narrow(number, place, endian, word)
    }

    // Puts the first `count` bytes round the end of the space. A refusal changes no byte.
    fn put(&mut self, base: u64, bytes: &[u8], count: usize) -> Result<(), AllocError>
        requires few { count ≤ 16 }
        requires there { count ≤ length bytes.now }
        ensures size { self.new.size ≡ self.old.size }
        ensures put { OnOk result (Puts (256 ^ self.old.size.bytes) base count (slice_index bytes.now) (byte_in self.old) (byte_in self.new)) }
        ensures unchanged { OnErr result ((offset : ℕ) → byte_in self.new offset ≡ byte_in self.old offset) }
    {
        match self.in_one_page(base, count as u64) {
            Some(offset) => self.put_in_page(offset, bytes, count),
            None => self.put_each(base, bytes, count),
        }
    }

    // The same, where the bytes lie in one page.
    fn put_in_page(&mut self, offset: u64, bytes: &[u8], count: usize) -> Result<(), AllocError>
        requires inside { offset % 4096 + count ≤ 4096 }
        requires there { count ≤ length bytes.now }
        ensures size { self.new.size ≡ self.old.size }
        ensures bytes { OnOk result ((other : ℕ) → byte_in self.new other
            ≡ with_run offset 0 count (slice_index bytes.now) (byte_in self.old) other) }
        ensures unchanged { OnErr result ((other : ℕ) → byte_in self.new other ≡ byte_in self.old other) }
    {
        if self.set_run(offset, bytes, 0, count) {
            return Ok(());
        }
        self.add_page(offset / PAGE_LENGTH)?;
        self.set_run(offset, bytes, 0, count);
        Ok(())
    }

    // The same, byte by byte.
    fn put_each(&mut self, base: u64, bytes: &[u8], count: usize) -> Result<(), AllocError>
        requires few { count ≤ 16 }
        requires there { count ≤ length bytes.now }
        ensures size { self.new.size ≡ self.old.size }
        ensures put { OnOk result (Puts (256 ^ self.old.size.bytes) base count (slice_index bytes.now) (byte_in self.old) (byte_in self.new)) }
        ensures unchanged { OnErr result ((offset : ℕ) → byte_in self.new offset ≡ byte_in self.old offset) }
    {
        self.add_pages(base, count as u64)?;
        self.set_each(base, bytes, count);
        Ok(())
    }

    // Puts the bytes. A refusal changes no byte.
    pub(crate) fn load(&mut self, base: u64, bytes: &[u8]) -> Result<(), AllocError>
        requires { base + length bytes.now ≤ 256 ^ self.old.size.bytes }
        ensures size { self.new.size ≡ self.old.size }
        ensures put { OnOk result (Puts (256 ^ self.old.size.bytes) base (length bytes.now) (slice_index bytes.now) (byte_in self.old) (byte_in self.new)) }
        ensures unchanged { OnErr result ((offset : ℕ) → byte_in self.new offset ≡ byte_in self.old offset) }
    {
        self.add_pages_of(base, bytes.len() as u64)?;
        self.set_bytes(base, bytes);
        Ok(())
    }

    // How many bytes from an offset on lie in its page, before the end of the space.
    fn run_at(&self, offset: u64) -> usize
        requires { offset < 256 ^ self.now.size.bytes }
        ensures some { 0 < result }
        ensures page { offset % 4096 + result ≤ 4096 }
        ensures room { offset + result ≤ 256 ^ self.now.size.bytes }
    {
        let in_page = PAGE_LENGTH - offset % PAGE_LENGTH;
        let behind = self.last() - offset;
        if behind < in_page {
            (behind + 1) as usize
        } else {
            in_page as usize
        }
    }

    // Copies `count` bytes, from one at an offset on that lie in one page, to a place of a buffer.
    fn copy_run(&self, offset: u64, out: &mut [u8], to: usize, count: usize)
        requires page { offset % 4096 + count ≤ 4096 }
        requires there { to + count ≤ length out.old }
        ensures length { length out.new ≡ length out.old }
        ensures bytes { (k : ℕ) → slice_index out.new k
            ≡ with_run to 0 count (λ i. byte_in self.now (offset + i)) (slice_index out.old) k }
    {
        let number = offset / PAGE_LENGTH;
        let place = (offset % PAGE_LENGTH) as usize;
        match self.pages.page(number) {
            Some(page) => page.copy_to(place, out, to, count),
            None => out[to..to + count].fill(0),
        }
    }

    // Fills a buffer with the bytes from a base on, page by page.
    pub(crate) fn fill(&self, base: u64, out: &mut [u8])
        ensures length { length out.new ≡ length out.old }
        ensures bytes { (i : ℕ) → i < length out.old → slice_index out.new i ≡ byte_after self.now base i }
    {
        let mut done = 0;
        'runs: while done < out.len() {
            let offset = self.address(base, done as u64);
            let count = self.run_at(offset).min(out.len() - done);
            self.copy_run(offset, out, done, count);
            done += count;
        }
    }

    // The word of at most 8 bytes from the base on.
    pub(crate) fn narrow(&self, base: u64, endian: Endian, size: Size) -> Narrow
        requires { size.bytes ≤ 8 }
        ensures size { result.size ≡ size }
        ensures value { result.bits ≡ number_of endian (byte_after self.now base) size.bytes }
    {
        if let Some(offset) = self.in_one_page(base, 8) {
            if let Some(page) = self.pages.listed(offset / PAGE_LENGTH) {
                return page.narrow((offset % PAGE_LENGTH) as usize, endian, size);
            }
        }
        let bits = self.number(base, endian, size) as u64;
        Narrow { bits, size }
    }

    // The number that the bytes from the base on make.
    pub(crate) fn number(&self, base: u64, endian: Endian, size: Size) -> u128
        ensures value { result ≡ number_of endian (byte_after self.now base) size.bytes }
        ensures below { result < 256 ^ size.bytes }
    {
        match self.in_one_page(base, u64::from(size.bytes)) {
            Some(offset) => self.number_in_page(offset, endian, size),
            None => self.number_by_bytes(base, endian, size),
        }
    }

    // The same, where the bytes lie in one page.
    fn number_in_page(&self, offset: u64, endian: Endian, size: Size) -> u128
        requires { offset % 4096 + size.bytes ≤ 4096 }
        ensures value { result ≡ number_of endian (λ i. byte_in self.now (offset + i)) size.bytes }
        ensures below { result < 256 ^ size.bytes }
    {
        let number = offset / PAGE_LENGTH;
        let place = (offset % PAGE_LENGTH) as usize;
        match self.pages.page(number) {
            Some(page) => page.number(place, endian, size),
            None => 0,
        }
    }

    // The same, byte by byte.
    fn number_by_bytes(&self, base: u64, endian: Endian, size: Size) -> u128
        ensures value { result ≡ number_of endian (byte_after self.now base) size.bytes }
        ensures below { result < 256 ^ size.bytes }
    {
        match endian {
            Endian::Little => self.little_endian(base, size),
            Endian::Big => self.big_endian(base, size),
        }
    }

    fn little_endian(&self, base: u64, size: Size) -> u128
        ensures value { result ≡ little_endian (byte_after self.now base) size.bytes }
        ensures below { result < 256 ^ size.bytes }
    {
        let mut number = 0;
        for place in 0..size.bytes {
            number += worth(self.byte_after(base, place), place);
        }
        number
    }

    fn big_endian(&self, base: u64, size: Size) -> u128
        ensures value { result ≡ big_endian (byte_after self.now base) size.bytes }
        ensures below { result < 256 ^ size.bytes }
    {
        let mut number = 0;
        for place in 0..size.bytes {
            number = number * 256 + u128::from(self.byte_after(base, place));
        }
        number
    }
}

// What a byte is worth above so many others.
fn worth(byte: u8, place: u8) -> u128
    requires { place < 16 }
    ensures { result ≡ byte * 256 ^ place }
{
    u128::from(byte) << (8 * u32::from(place))
}
