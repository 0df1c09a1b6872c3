//! `list`: instructions, or the marks of what doesn't decode.

ghost use Rattle.std.specs.Prelude.{◌≡◌, ◌+◌, ◌^◌, ◌<◌, ◌≤◌, List, IfOk, Ok, OnOk, length};
ghost use Rattle.sl_decode_contexts.specs.Runs.{Stands};
ghost use Rattle.sl_decode_contexts.specs.declared.commits.Commit.{Commit as CommitOf};
ghost use Rattle.sl_list_instructions.specs.Instructions.{DecodeFunction, Listed, listing_window};
ghost use Rattle.sl_list_instructions.specs.Instructions.{mark_of, told_by};
ghost use Rattle.sl_list_instructions.specs.Lines.{bytes_at, listed_line};

use crate::lines::{MOST_BYTES, push_listed};
use crate::listings::Lister;
use sl_decode_contexts::{Commit, ContextMap};
use sl_decode_meaning::Fault;
use sl_word::AddressSize;
use std::alloc::{AllocError, Global};

/// The number of bytes that a decode is told, those of the longest instruction and those beyond it
/// that are looked at.
pub const WINDOW: usize = 272;

/// What decodes instructions.
pub trait Decoder {
    /// Buffers that are used again from instruction to instruction.
    type Buffers: Drop;

    /// What bytes at an address decode to, from a context.
    ghost tells: { Self → DecodeFunction };

    /// What has to hold before anything is told.
    ghost ready: { Self → Type 0 };

    /// Puts the text and the commits of the instruction in the place of what the buffers hold. The
    /// result is its length in bytes, or why the bytes don't decode. The only error is want of
    /// memory.
    fn tell(
        &self,
        bytes: &[u8],
        address: u64,
        context: u64,
        buffers: &mut Self::Buffers,
        text: &mut Vec<u8>,
        commits: &mut Vec<Commit>,
    ) -> Result<Result<u32, Fault>, AllocError>
        requires ready { ready self.now }
        requires bytes { length bytes.now ≡ listing_window }
        ensures { IfOk result (λ r. told_by r text.new.items commits.new.items
            ≡ tells self.now bytes.now address context) };
}

/// An image that is listed by a decoder.
#[derive(Drop)]
pub struct Listing<'l, D: Decoder> {
    pub decoder: &'l D,
    pub image: &'l [u8],
    /// The address of the first byte.
    pub base: u64,
    pub address_size: AddressSize,
    /// In bytes.
    pub alignment: u8,
    /// The context where no commit counts.
    pub start: u64,
    ghost aligned: { 1 ≤ alignment },
    ghost fits: { base + length image.now ≤ 2 ^ 64 },
}

/// Buffers of a listing, and those of its decoder.
#[derive(Drop)]
pub struct ListBuffers<B: Drop> {
    text: Vec<u8>,
    decoder: B,
}

impl<B: Drop> ListBuffers<B> {
    pub fn new(alloc: Global, decoder: B) -> Self {
        ListBuffers {
            text: Vec::new(alloc),
            decoder,
        }
    }
}

/// The length of an instruction. One without bytes, or with more than a line shows, is answered as
/// want of memory: rules 35 and 37 let none be so.
pub fn count_of(length: u32) -> Result<usize, AllocError>
    ensures same { IfOk result (λ n. n ≡ length) }
    ensures some { IfOk result (λ n. 1 ≤ n) }
    ensures most { IfOk result (λ n. n ≤ MOST_BYTES) }
    ensures given { 1 ≤ length → length ≤ MOST_BYTES → result ≡ Ok length }
{
    let count = length as usize;
    if count == 0 || count > MOST_BYTES {
        return Err(AllocError);
    }
    Ok(count)
}

/// The mark of an instruction that doesn't decode.
pub fn mark_of(fault: Fault) -> &'static [u8]
    ensures { result.now ≡ mark_of fault }
{
    match fault {
        Fault::NoConstructor { .. } => b"??",
        Fault::NoEntry { .. } => b"?entry",
        Fault::ActionDivide { .. } => b"?divide",
    }
}

/// The bytes from this place of the image on, which zeros follow.
pub fn window_at(image: &[u8], at: usize) -> [u8; WINDOW]
    requires { at ≤ length image.now }
    ensures { result ≡ bytes_at image.now at listing_window }
{
    let rest = &image[at..];
    let count = rest.len().min(WINDOW);
    let mut window = [0; WINDOW];
    window[..count].copy_from_slice(&rest[..count]);
    window
}

/// Puts a line in the place of what the buffer holds.
pub fn put_line(
    line: &mut Vec<u8>,
    size: AddressSize,
    address: u64,
    shown: &[u8],
    text: &[u8],
) -> Result<(), AllocError>
    requires { length shown.now ≤ MOST_BYTES }
    ensures { OnOk result (line.new.items ≡ listed_line size.bytes address shown.now text.now) }
{
    line.clear();
    push_listed(line, size, address, shown, text)
}

impl<D: Decoder> Listing<'_, D> {
    /// Puts the text of a position and its commits in the place of what the buffers hold, by the bytes
    /// from there on. The result is the number of bytes that it covers.
    fn show_from(
        &self,
        at: usize,
        bytes: &[u8],
        contexts: &ContextMap,
        buffers: &mut ListBuffers<D::Buffers>,
        text: &mut Vec<u8>,
        commits: &mut Vec<Commit>,
    ) -> Result<usize, AllocError>
        requires ready { D.ready self.now.decoder.now }
        requires within { at < length self.now.image.now }
        requires bytes { bytes.now ≡ bytes_at self.now.image.now at listing_window }
        requires whole { length bytes.now ≡ listing_window }
        ensures some { IfOk result (λ n. (1 ≤ n) × (n ≤ 255)) }
        ensures shown { IfOk result (λ n. (cs : List CommitOf)
            → Stands contexts.now self.now.start cs
            → Listed (record {
              tells = D.tells self.now.decoder.now;
              image = self.now.image.now;
              base = self.now.base;
              address_bytes = self.now.address_size.bytes;
              alignment = self.now.alignment;
              start = self.now.start;
            }) at cs text.new.items n commits.new.items) }
    {
        let size = self.address_size;
        let alignment = usize::from(self.alignment);
        let address = self.base + at as u64;
        let beyond = (address % u64::from(self.alignment)) as usize;
        if beyond > 0 {
            let count = alignment - beyond;
            commits.clear();
            put_line(text, size, address, &bytes[..count], b"?align")?;
            return Ok(count);
        }
        let context = contexts.at(address);
        let inner = &mut buffers.decoder;
        let shown = &mut buffers.text;
        match self
            .decoder
            .tell(bytes, address, context, inner, shown, commits)?
        {
            Ok(length) => {
                let count = count_of(length)?;
                put_line(text, size, address, &bytes[..count], shown.as_slice())?;
                Ok(count)
            }
            Err(fault) => {
                commits.clear();
                put_line(text, size, address, &bytes[..alignment], mark_of(fault))?;
                Ok(alignment)
            }
        }
    }
}

impl<'l, D: Decoder> Lister for Listing<'l, D> {
    type Buffers = ListBuffers<D::Buffers>;

    ghost shows = { λ l. Listed (record {
      tells = D.tells l.decoder.now;
      image = l.image.now;
      base = l.base;
      address_bytes = l.address_size.bytes;
      alignment = l.alignment;
      start = l.start;
    }) };

    ghost end = { λ l. length l.image.now };

    ghost ready = { λ l. D.ready l.decoder.now };

    ghost start = { λ l. l.start };

    fn end(&self) -> usize {
        self.image.len()
    }

    fn start(&self) -> u64 {
        self.start
    }

    fn show(
        &self,
        at: usize,
        contexts: &ContextMap,
        buffers: &mut Self::Buffers,
        text: &mut Vec<u8>,
        commits: &mut Vec<Commit>,
    ) -> Result<usize, AllocError> {
        let rest = &self.image[at..];
        if rest.len() >= WINDOW {
            return self.show_from(at, &rest[..WINDOW], contexts, buffers, text, commits);
        }
        let window = window_at(self.image, at);
        self.show_from(at, &window, contexts, buffers, text, commits)
    }
}
