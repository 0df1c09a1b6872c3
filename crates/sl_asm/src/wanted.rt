//! Whether bytes are an encoding of a text, and what the text says of them.

ghost use Rattle.std.specs.Prelude.{◌≡◌, ◌↔◌, ◌+◌, ◌≤◌, IfOk, IsTrue, MatchOption, length};
ghost use Rattle.sl_asm.specs.Assembling.{Covers, HasNone, HasNoneIn, IsAmong, KeepsPassing};
ghost use Rattle.sl_asm.specs.Wanted.{IsReady};
ghost use Rattle.sl_asm_encodings.specs.Encodings.{Encodes};
ghost use Rattle.sl_asm_fit.specs.Regions.{IsOpen};
ghost use Rattle.sl_asm_narrow.specs.Readers.{tables_of, written_of};
ghost use Rattle.sl_decode_meaning.specs.Actions.{address_in};

use sl_asm_fit::{Cell, Test};
use sl_asm_narrow::{Reader, Setting};
use sl_decode::{Walk, address_size};
use sl_list_instructions::{Decoder, MOST_BYTES, Specified, window_at};
use sl_spec::Tables;
use std::alloc::{AllocError, Global};

/// The text of an instruction, with the address at which it is to stand and the context there.
#[derive(Drop)]
pub struct Wanted<'r, 'x, 'd, 't, 'a> {
    pub reader: &'r Reader<'d, 't, 'a>,
    pub text: &'x [u8],
    pub address: u64,
    pub context: u64,
}

/// The least and the greatest length of encodings.
#[derive(Clone, Copy)]
pub struct Span {
    pub least: u32,
    pub most: u32,
}

impl Span {
    /// Whether a number of bytes is among the lengths.
    pub fn has(&self, length: usize) -> bool
        ensures { IsTrue result ↔ IsAmong self.now length }
    {
        self.least as usize <= length && length <= self.most as usize
    }
}

/// The address of the default space so many bytes after another one.
fn address_after(t: &Tables, address: u64, count: u32) -> u64
    ensures { result ≡ address_in t.now (address + count) }
{
    let number = u128::from(address) + u128::from(count);
    (number % (1 << (8 * u32::from(address_size(t).bytes)))) as u64
}

impl Test for Wanted<'_, '_, '_, '_, '_> {
    ghost ready = { λ w. IsReady w };

    ghost passes = { λ w bytes. Encodes (tables_of w.reader.now) (written_of w.reader.now)
        w.address w.context w.text.now bytes };

    fn test(&self, alloc: Global, bytes: &[u8]) -> Result<bool, AllocError> {
        let count = bytes.len();
        if count == 0 || count > MOST_BYTES {
            return Ok(false);
        }
        let disassembly = self.reader.disassembly;
        let specified = Specified {
            disassembler: &disassembly.disassembler,
            templates: &disassembly.templates,
            constructors: &disassembly.constructors,
        };
        let window = window_at(bytes, 0);
        let mut walk = Walk::new(alloc);
        let mut text = Vec::new(alloc);
        let mut commits = Vec::new(alloc);
        let told = specified.tell(
            &window,
            self.address,
            self.context,
            &mut walk,
            &mut text,
            &mut commits,
        )?;
        let Ok(length) = told else {
            return Ok(false);
        };
        if length as usize != count {
            return Ok(false);
        }
        Ok(text.as_slice() == self.text)
    }
}

impl Wanted<'_, '_, '_, '_, '_> {
    /// The region narrowed by what the text says of its lists, or `None` where none is an encoding.
    pub(crate) fn narrowed(
        &self,
        alloc: Global,
        region: &[Cell],
    ) -> Result<Option<Vec<Cell>>, AllocError>
        requires ready { IsReady self.now }
        requires long { length region.now ≤ 255 }
        ensures { IfOk result (λ found. MatchOption found (HasNoneIn self.now region.now)
            (λ narrow. KeepsPassing self.now region.now narrow.items)) }
    {
        let count = region.len() as u32;
        let next = address_after(self.reader.tables(), self.address, count);
        let setting = Setting {
            start: self.address,
            next: Some(next),
        };
        let found = self
            .reader
            .bounds(alloc, &setting, region, self.text, self.context)?;
        let Some(bounds) = found else {
            return Ok(None);
        };
        let span = Span {
            least: bounds.least,
            most: bounds.most,
        };
        if !span.has(region.len()) {
            return Ok(None);
        }
        Ok(Some(bounds.region))
    }

    /// The lengths of encodings, as far as the text tells them, or `None` where there are none. The
    /// region is that of all lists of the greatest length.
    pub(crate) fn lengths(&self, alloc: Global, region: &[Cell]) -> Result<Option<Span>, AllocError>
        requires ready { IsReady self.now }
        requires open { IsOpen 255 region.now }
        ensures { IfOk result (λ found. MatchOption found (HasNone self.now)
            (λ span. Covers self.now span)) }
    {
        let setting = Setting {
            start: self.address,
            next: None,
        };
        let found = self
            .reader
            .bounds(alloc, &setting, region, self.text, self.context)?;
        match found {
            Some(bounds) => Ok(Some(Span {
                least: bounds.least,
                most: bounds.most,
            })),
            None => Ok(None),
        }
    }
}
