//! The pages of an address space, by their numbers.

ghost use Rattle.std.specs.Prelude.{◌≡◌, ◌≢◌, ℕ, ◌+◌, ◌<◌, ◌≤◌, ◌==◌, ◌↔◌, if◌then◌else◌, None, Some};
ghost use Rattle.std.specs.Prelude.{false, length, slice_index, slice_index_or, IsTrue, IsSome, OnOk, OnErr};
ghost use Rattle.std.specs.Option.{option_copied};
ghost use Rattle.std.specs.BTreeMap.{get};
ghost use Rattle.std.specs.Ordering.{nat_cmp};
ghost use Rattle.sl_word.specs.Differences.{IsFirstPage};
ghost use Rattle.sl_word.specs.Layout.{byte_of};
ghost use Rattle.sl_word.specs.Pages.{page_in, byte_in_page, PutsInPage};
ghost use Rattle.sl_word.specs.Runs.{with_run};

use crate::page::Page;
use crate::{Endian, Narrow};
use std::alloc::{AllocError, Global};
use std::collections::BTreeMap;

// The pages below this number stand in a list.
const LISTED: u64 = 4096;

/// Pages by their numbers. The first ones stand in a list, where each is found by its number alone, the
/// others in a tree.
#[derive(Drop)]
pub(crate) struct Pages {
    alloc: Global,
    listed: Vec<Option<Page>>,
    others: BTreeMap<u64, Page>,
}

impl Pages {
    ghost use Rattle.sl_word.specs.Pages.{page_of};

    pub(crate) fn new(alloc: Global) -> Pages
        ensures { (number : ℕ) → page_of result number ≡ None }
    {
        let listed = Vec::new(alloc);
        let others = BTreeMap::new(alloc);
        Pages {
            alloc,
            listed,
            others,
        }
    }

    // A page of the list, if it is there.
    pub(crate) fn listed(&self, number: u64) -> Option<&Page>
        ensures { option_copied result ≡ page_in self.now.listed.items number }
    {
        match self.listed.get(number as usize) {
            Some(Some(page)) => Some(page),
            _ => None,
        }
    }

    // A page, if it is there.
    pub(crate) fn page(&self, number: u64) -> Option<&Page>
        ensures { option_copied result ≡ page_of self.now number }
    {
        match self.listed(number) {
            Some(page) => Some(page),
            None => self.others.get(&number),
        }
    }

    // Adds a page of zeros, where there is none of this number.
    pub(crate) fn add(&mut self, number: u64) -> Result<(), AllocError>
        ensures there { OnOk result (IsSome (page_of self.new number)) }
        ensures stay { (other : ℕ) → IsSome (page_of self.old other) → IsSome (page_of self.new other) }
        ensures same { (other place : ℕ) → byte_in_page (page_of self.new other) place
            ≡ byte_in_page (page_of self.old other) place }
    {
        if self.page(number).is_some() {
            return Ok(());
        }
        let page = Page::zeros(self.alloc)?;
        if number < LISTED {
            list(&mut self.listed, number as usize, page)?;
        } else {
            self.others.insert(number, page)?;
        }
        Ok(())
    }

    // Puts `count` bytes, from the one at `from` on, at a place of a page, if it is there. Whether it is.
    pub(crate) fn put(
        &mut self,
        number: u64,
        place: usize,
        bytes: &[u8],
        from: usize,
        count: usize,
    ) -> bool
        requires inside { place + count ≤ 4096 }
        requires there { from + count ≤ length bytes.now }
        ensures found { IsSome (page_of self.old number) → IsTrue result }
        ensures put { IsTrue result → PutsInPage number place from count (slice_index bytes.now) (page_of self.old) (page_of self.new) }
        ensures unchanged { result ≡ false → (other : ℕ) → page_of self.new other ≡ page_of self.old other }
    {
        if put_listed(&mut self.listed, number as usize, place, bytes, from, count) {
            return true;
        }
        match self.others.get_mut(&number) {
            Some(page) => {
                page.put(place, bytes, from, count);
                true
            }
            None => false,
        }
    }

    // Puts the bytes of a word at a place of a page, if it is there and in the list. Whether it is.
    pub(crate) fn put_narrow(
        &mut self,
        number: u64,
        place: usize,
        endian: Endian,
        word: Narrow,
    ) -> bool
        requires { place + word.size.bytes ≤ 4096 }
        ensures put { IsTrue result → PutsInPage number place 0 word.size.bytes (byte_of endian word.size.bytes word.bits) (page_of self.old) (page_of self.new) }
        ensures unchanged { result ≡ false → (other : ℕ) → page_of self.new other ≡ page_of self.old other }
    {
        put_narrow_listed(&mut self.listed, number as usize, place, endian, word)
    }

    // The least number of a page that isn't below this one.
    pub(crate) fn first_from(&self, number: u64) -> Option<u64>
        ensures { IsFirstPage (λ k. IsSome (page_of self.now k)) number result }
    {
        match (first_listed(&self.listed, number), self.first_other(number)) {
            (Some(listed), Some(other)) => Some(listed.min(other)),
            (listed, None) => listed,
            (None, other) => other,
        }
    }

    // The same of the pages of the tree.
    fn first_other(&self, number: u64) -> Option<u64>
        ensures { IsFirstPage (λ k. IsSome (get nat_cmp self.now.others k)) number result }
    {
        let (found, _) = self.others.range(number..).next()?;
        Some(*found)
    }
}

// Puts a page into a list, which grows to have its number.
fn list(pages: &mut Vec<Option<Page>>, number: usize, page: Page) -> Result<(), AllocError>
    requires { number < 4096 }
    ensures listed { OnOk result ((k : ℕ) → page_in pages.new.items k
        ≡ (if k == number then Some page else page_in pages.old.items k)) }
    ensures unchanged { OnErr result ((k : ℕ) → page_in pages.new.items k ≡ page_in pages.old.items k) }
{
    widen(pages, number)?;
    pages[number] = Some(page);
    Ok(())
}

// Makes a list have this number, with no page where it grows.
fn widen(pages: &mut Vec<Option<Page>>, number: usize) -> Result<(), AllocError>
    requires { number < 4096 }
    ensures long { OnOk result (number < length pages.new.items) }
    ensures same { (k : ℕ) → page_in pages.new.items k ≡ page_in pages.old.items k }
{
    while pages.len() <= number {
        pages.push(None)?;
    }
    Ok(())
}

// Puts bytes at a place of a page of a list, if it is there. Whether it is.
fn put_listed(
    pages: &mut [Option<Page>],
    number: usize,
    place: usize,
    bytes: &[u8],
    from: usize,
    count: usize,
) -> bool
    requires inside { place + count ≤ 4096 }
    requires there { from + count ≤ length bytes.now }
    ensures found { IsTrue result ↔ IsSome (page_in pages.old number) }
    ensures put { IsTrue result → PutsInPage number place from count (slice_index bytes.now) (page_in pages.old) (page_in pages.new) }
    ensures unchanged { result ≡ false → (other : ℕ) → page_in pages.new other ≡ page_in pages.old other }
{
    if pages.len() <= number {
        return false;
    }
    put_in(&mut pages[number], place, bytes, from, count)
}

// Puts bytes at a place of a page, if there is one. Whether there is.
fn put_in(page: &mut Option<Page>, place: usize, bytes: &[u8], from: usize, count: usize) -> bool
    requires inside { place + count ≤ 4096 }
    requires there { from + count ≤ length bytes.now }
    ensures found { IsTrue result ↔ IsSome page.old }
    ensures stays { IsSome page.old → IsSome page.new }
    ensures put { (k : ℕ) → IsTrue result → byte_in_page page.new k
        ≡ with_run place from count (slice_index bytes.now) (byte_in_page page.old) k }
    ensures unchanged { result ≡ false → page.new ≡ page.old }
{
    match page {
        Some(page) => {
            page.put(place, bytes, from, count);
            true
        }
        None => false,
    }
}

// Puts the bytes of a word at a place of a page of a list, if it is there. Whether it is.
fn put_narrow_listed(
    pages: &mut [Option<Page>],
    number: usize,
    place: usize,
    endian: Endian,
    word: Narrow,
) -> bool
    requires { place + word.size.bytes ≤ 4096 }
    ensures found { IsTrue result ↔ IsSome (page_in pages.old number) }
    ensures put { IsTrue result → PutsInPage number place 0 word.size.bytes (byte_of endian word.size.bytes word.bits) (page_in pages.old) (page_in pages.new) }
    ensures unchanged { result ≡ false → (other : ℕ) → page_in pages.new other ≡ page_in pages.old other }
{
    if pages.len() <= number {
        return false;
    }
    put_narrow_in(&mut pages[number], place, endian, word)
}

// Puts the bytes of a word at a place of a page, if there is one. Whether there is.
fn put_narrow_in(page: &mut Option<Page>, place: usize, endian: Endian, word: Narrow) -> bool
    requires { place + word.size.bytes ≤ 4096 }
    ensures found { IsTrue result ↔ IsSome page.old }
    ensures stays { IsSome page.old → IsSome page.new }
    ensures put { (k : ℕ) → IsTrue result → byte_in_page page.new k
        ≡ with_run place 0 word.size.bytes (byte_of endian word.size.bytes word.bits) (byte_in_page page.old) k }
    ensures unchanged { result ≡ false → page.new ≡ page.old }
{
    match page {
        Some(page) => {
            page.put_narrow(place, endian, word);
            true
        }
        None => false,
    }
}

// The least number of a page of a list that isn't below this one.
fn first_listed(pages: &[Option<Page>], number: u64) -> Option<u64>
    ensures { IsFirstPage (λ k. IsSome (page_in pages.now k)) number result }
{
    for index in number as usize..pages.len() {
        if pages[index].is_some() {
            return Some(index as u64);
        }
    }
    None
}
