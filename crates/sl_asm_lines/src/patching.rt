//! The lines of an edited listing, given their bytes one after another.

ghost use Rattle.std.specs.Prelude.{◌≡◌, ◌+◌, ◌<◌, ◌≤◌, ◌^◌, ◌∷◌, ◌++◌, List, IfOk, IsTrue, MatchOption, MatchResult};
ghost use Rattle.std.specs.Prelude.{drop, length, take};
ghost use Rattle.sl_asm_lines.specs.Fronts.{line_of};
ghost use Rattle.sl_asm_lines.specs.Patching.{HasNoEncoding, ListsItself, subject_at};
ghost use Rattle.sl_asm_lines.specs.Patched.{LinesFail, LinesGive};
ghost use Rattle.sl_asm_lines.specs.Kept.{AreKept, kept_shape};
ghost use Rattle.sl_asm_lines.specs.Lines.{Line as LineOf, shape_of};
ghost use Rattle.sl_asm_lines.specs.Steps.{ArePatched, IsAt, IsFirstOther, IsGiven, IsNextOr, IsPassedOr, IsReady, IsReplacedOr, IsShownAs, total};
ghost use Rattle.sl_decode_contexts.specs.Runs.{Stands};
ghost use Rattle.sl_decode_contexts.specs.declared.commits.Commit.{Commit as CommitOf};
ghost use Rattle.sl_list_instructions.specs.Instructions.{Listed};

use crate::encoding::Encoder;
use crate::faults::{LineError, LineFault};
use crate::listing::ShownLine;
use sl_decode_contexts::{Commit, ContextMap};
use sl_list_instructions::{Decoder, ListBuffers, Lister, Listing, put_line};
use sl_word::AddressSize;
use std::alloc::{AllocError, Global};

/// What gives the lines of a listing their bytes.
#[derive(Drop)]
pub struct Patcher<'p, D: Decoder, E: Encoder> {
    pub decoder: &'p D,
    pub encoder: &'p E,
    /// The address of the first line.
    pub base: u64,
    pub address_size: AddressSize,
    /// In bytes.
    pub alignment: u8,
    /// The context where no commit counts.
    pub start: u64,
    ghost aligned: { 1 ≤ alignment },
}

/// Buffers that are used again from line to line.
#[derive(Drop)]
struct Buffers<B: Drop> {
    lister: ListBuffers<B>,
    /// What is listed.
    shown: Vec<u8>,
    /// What the line says.
    wanted: Vec<u8>,
    commits: Vec<Commit>,
}

/// Where the next line is.
#[derive(Drop)]
struct Position {
    /// How many bytes the lines before it have.
    at: usize,
    /// The contexts that they leave.
    contexts: ContextMap,
}

/// Puts bytes into the image, from a position on.
fn put(image: &mut [u8], at: usize, bytes: &[u8])
    requires { at + length bytes.now ≤ length image.old }
    ensures long { length image.new ≡ length image.old }
    ensures put { image.new
        ≡ take at image.old ++ (bytes.now ++ drop (at + length bytes.now) image.old) }
{
    image[at..at + bytes.len()].copy_from_slice(bytes);
}

impl<D: Decoder, E: Encoder> Patcher<'_, D, E> {
    /// Puts what is listed at a position of an image, and its commits, in the place of what the
    /// buffers hold. The result is how many bytes it covers.
    fn show_at(
        &self,
        image: &[u8],
        base: u64,
        at: usize,
        contexts: &ContextMap,
        buffers: &mut Buffers<D::Buffers>,
    ) -> Result<usize, AllocError>
        requires ready { D.ready self.now.decoder.now }
        requires fits { base + length image.now ≤ 2 ^ 64 }
        requires within { at < length image.now }
        ensures { IfOk result (λ count. (cs : List CommitOf)
            → Stands contexts.now self.now.start cs
            → Listed (subject_at (D.tells self.now.decoder.now) self.now.address_size.bytes
            self.now.alignment self.now.start image.now base)
            at cs buffers.new.shown.items count buffers.new.commits.items) }
    {
        let listing = Listing {
            decoder: self.decoder,
            image,
            base,
            address_size: self.address_size,
            alignment: self.alignment,
            start: self.start,
        };
        let Buffers {
            lister,
            shown,
            commits,
            ..
        } = buffers;
        listing.show(at, contexts, lister, shown, commits)
    }

    /// Whether a line is listed at a position of the image, with the image's bytes.
    fn is_listed(
        &self,
        image: &[u8],
        at: usize,
        line: ShownLine<'_>,
        contexts: &ContextMap,
        buffers: &mut Buffers<D::Buffers>,
    ) -> Result<bool, AllocError>
        requires ready { D.ready self.now.decoder.now }
        requires fits { self.now.base + length image.now ≤ 2 ^ 64 }
        requires within { at + line.count ≤ length image.now }
        ensures { IfOk result (λ listed. (cs : List CommitOf)
            → Stands contexts.now self.now.start cs
            → IsShownAs (D.tells self.now.decoder.now) self.now.address_size.bytes
            self.now.alignment self.now.start self.now.base image.now at cs
            (line_of (take line.entry.count (drop at image.now)) line.entry.text.now)
            buffers.new.commits.items listed) }
    {
        let count = self.show_at(image, self.base, at, contexts, buffers)?;
        let bytes = &image[at..at + usize::from(line.count)];
        let address = self.base + at as u64;
        put_line(
            &mut buffers.wanted,
            self.address_size,
            address,
            bytes,
            line.text,
        )?;
        Ok(count == bytes.len() && buffers.shown.as_slice() == buffers.wanted.as_slice())
    }

    /// Gives a line other bytes in the image, an encoding of its text, and puts its commits in the
    /// place of what the buffer holds. False where there is no encoding of as many bytes.
    fn replace(
        &self,
        alloc: Global,
        image: &mut [u8],
        line: ShownLine<'_>,
        position: &Position,
        buffers: &mut Buffers<D::Buffers>,
    ) -> Result<bool, AllocError>
        requires ready { IsReady (D.ready self.now.decoder.now) (E.ready self.now.encoder.now)
            (D.tells self.now.decoder.now) (E.decodes self.now.encoder.now) }
        requires fits { self.now.base + length image.old ≤ 2 ^ 64 }
        requires within { position.now.at + line.count ≤ length image.old }
        ensures long { length image.new ≡ length image.old }
        ensures bytes { IfOk result (λ found. (cs : List CommitOf)
            → Stands position.now.contexts self.now.start cs
            → IsReplacedOr (D.tells self.now.decoder.now) self.now.address_size.bytes
            self.now.alignment self.now.start self.now.base image.old image.new position.now.at cs
            (line_of (take line.entry.count (drop position.now.at image.old)) line.entry.text.now)
            buffers.new.commits.items found) }
    {
        let at = position.at;
        let address = self.base + at as u64;
        let context = position.contexts.at(address);
        let found = self
            .encoder
            .encode(alloc, line.text, address, context, line.count)?;
        let Some(bytes) = found else {
            return Ok(false);
        };
        self.show_at(&bytes, address, 0, &position.contexts, buffers)?;
        put(image, at, &bytes);
        Ok(true)
    }

    /// Gives a line its bytes in the image, and puts its commits in the place of what the buffer
    /// holds: those that are there where it is listed with them, else an encoding. False where it has
    /// none.
    fn give_bytes(
        &self,
        alloc: Global,
        image: &mut [u8],
        line: ShownLine<'_>,
        position: &Position,
        buffers: &mut Buffers<D::Buffers>,
    ) -> Result<bool, AllocError>
        requires ready { IsReady (D.ready self.now.decoder.now) (E.ready self.now.encoder.now)
            (D.tells self.now.decoder.now) (E.decodes self.now.encoder.now) }
        requires fits { self.now.base + length image.old ≤ 2 ^ 64 }
        requires within { position.now.at + line.count ≤ length image.old }
        ensures long { length image.new ≡ length image.old }
        ensures given { IfOk result (λ found. (cs : List CommitOf)
            → Stands position.now.contexts self.now.start cs
            → IsGiven (D.tells self.now.decoder.now) self.now.address_size.bytes
            self.now.alignment self.now.start self.now.base image.old image.new position.now.at cs
            (line_of (take line.entry.count (drop position.now.at image.old)) line.entry.text.now)
            buffers.new.commits.items found) }
    {
        let at = position.at;
        if self.is_listed(image, at, line, &position.contexts, buffers)? {
            return Ok(true);
        }
        let found = self.replace(alloc, image, line, position, buffers)?;
        Ok(found)
    }

    /// Gives the next line its bytes, and goes on after it. False where it has none.
    fn patch_line(
        &self,
        alloc: Global,
        image: &mut [u8],
        line: ShownLine<'_>,
        position: &mut Position,
        buffers: &mut Buffers<D::Buffers>,
    ) -> Result<bool, AllocError>
        requires ready { IsReady (D.ready self.now.decoder.now) (E.ready self.now.encoder.now)
            (D.tells self.now.decoder.now) (E.decodes self.now.encoder.now) }
        requires fits { self.now.base + length image.old ≤ 2 ^ 64 }
        requires within { position.old.at + line.count ≤ length image.old }
        ensures long { length image.new ≡ length image.old }
        ensures at { IfOk result (λ found. IsTrue found
            → position.new.at ≡ position.old.at + line.entry.count) }
        ensures next { IfOk result (λ found.
            (lines done rest : List LineOf) (cs : List CommitOf) (l : LineOf)
            → IsAt (D.tells self.now.decoder.now) self.now.address_size.bytes self.now.alignment
            self.now.start self.now.base lines done (l ∷ rest) cs image.old position.old.at
            position.old.contexts → shape_of l ≡ kept_shape line.entry
            → IsNextOr (D.tells self.now.decoder.now) self.now.address_size.bytes
            self.now.alignment self.now.start self.now.base lines done rest l image.new
            position.new.at position.new.contexts found) }
    {
        if !self.give_bytes(alloc, image, line, position, buffers)? {
            return Ok(false);
        }
        position.contexts.commit_all(&buffers.commits)?;
        position.at += usize::from(line.count);
        Ok(true)
    }

    /// Gives all lines their bytes, in turn. The result is the first line that has none, counted from
    /// 1.
    fn patch_all(
        &self,
        alloc: Global,
        image: &mut [u8],
        lines: &[ShownLine<'_>],
        buffers: &mut Buffers<D::Buffers>,
    ) -> Result<Option<usize>, AllocError>
        requires ready { IsReady (D.ready self.now.decoder.now) (E.ready self.now.encoder.now)
            (D.tells self.now.decoder.now) (E.decodes self.now.encoder.now) }
        requires fits { self.now.base + length image.old ≤ 2 ^ 64 }
        requires whole { total lines.now ≡ length image.old }
        ensures long { length image.new ≡ length image.old }
        ensures patched { IfOk result (λ stuck. (ls : List LineOf)
            → AreKept image.old lines.now ls
            → MatchOption stuck
            (ArePatched (D.tells self.now.decoder.now) self.now.address_size.bytes
            self.now.alignment self.now.start self.now.base ls image.new)
            (λ number. HasNoEncoding (D.tells self.now.decoder.now) self.now.address_size.bytes
            self.now.alignment self.now.start self.now.base ls number)) }
    {
        let contexts = ContextMap::new(alloc, self.start);
        let mut position = Position { at: 0, contexts };
        'lines: for index in 0..lines.len() {
            let line = lines[index];
            if !self.patch_line(alloc, image, line, &mut position, buffers)? {
                return Ok(Some(index + 1));
            }
        }
        Ok(None)
    }

    /// Whether the next line is listed in the image with its bytes; then it goes on after it.
    fn pass_line(
        &self,
        image: &[u8],
        line: ShownLine<'_>,
        position: &mut Position,
        buffers: &mut Buffers<D::Buffers>,
    ) -> Result<bool, AllocError>
        requires ready { D.ready self.now.decoder.now }
        requires fits { self.now.base + length image.now ≤ 2 ^ 64 }
        requires within { position.old.at + line.count ≤ length image.now }
        ensures at { IfOk result (λ listed. IsTrue listed
            → position.new.at ≡ position.old.at + line.entry.count) }
        ensures next { IfOk result (λ listed. (cs : List CommitOf)
            → Stands position.old.contexts self.now.start cs
            → IsPassedOr (D.tells self.now.decoder.now) self.now.address_size.bytes
            self.now.alignment self.now.start self.now.base image.now position.old.at cs
            (line_of (take line.entry.count (drop position.old.at image.now))
            line.entry.text.now) position.new.contexts listed) }
    {
        if !self.is_listed(image, position.at, line, &position.contexts, buffers)? {
            return Ok(false);
        }
        position.contexts.commit_all(&buffers.commits)?;
        position.at += usize::from(line.count);
        Ok(true)
    }

    /// The first line that isn't listed in the image with its bytes, counted from 1.
    fn first_other(
        &self,
        alloc: Global,
        image: &[u8],
        lines: &[ShownLine<'_>],
        buffers: &mut Buffers<D::Buffers>,
    ) -> Result<Option<usize>, AllocError>
        requires ready { D.ready self.now.decoder.now }
        requires fits { self.now.base + length image.now ≤ 2 ^ 64 }
        requires whole { total lines.now ≡ length image.now }
        ensures { IfOk result (λ other. (ls : List LineOf) → AreKept image.now lines.now ls
            → MatchOption other
            (ListsItself (D.tells self.now.decoder.now) self.now.address_size.bytes
            self.now.alignment self.now.start self.now.base ls)
            (λ number. IsFirstOther (D.tells self.now.decoder.now) self.now.address_size.bytes
            self.now.alignment self.now.start self.now.base ls number)) }
    {
        let contexts = ContextMap::new(alloc, self.start);
        let mut position = Position { at: 0, contexts };
        'lines: for index in 0..lines.len() {
            let line = lines[index];
            if !self.pass_line(image, line, &mut position, buffers)? {
                return Ok(Some(index + 1));
            }
        }
        Ok(None)
    }

    /// The image of lines: each one that isn't listed in it is given an encoding of as many bytes, in
    /// turn. The image begins with the bytes that they show. Else the line that has no encoding, or
    /// the first that isn't listed in the image of all. The only error is want of memory.
    pub fn patch(
        &self,
        alloc: Global,
        image: Vec<u8>,
        lines: &[ShownLine<'_>],
        decoder: D::Buffers,
    ) -> Result<Result<Vec<u8>, LineError>, AllocError>
        requires ready { IsReady (D.ready self.now.decoder.now) (E.ready self.now.encoder.now)
            (D.tells self.now.decoder.now) (E.decodes self.now.encoder.now) }
        requires fits { self.now.base + length image.items ≤ 2 ^ 64 }
        requires whole { total lines.now ≡ length image.items }
        ensures { IfOk result (λ r. (ls : List LineOf) → AreKept image.items lines.now ls
            → MatchResult r
            (λ all. LinesGive (D.tells self.now.decoder.now) self.now.address_size.bytes
            self.now.alignment self.now.start self.now.base ls all.items)
            (λ e. LinesFail (D.tells self.now.decoder.now) self.now.address_size.bytes
            self.now.alignment self.now.start self.now.base ls e.number e.fault)) }
    {
        let mut image = image;
        let mut buffers = Buffers {
            lister: ListBuffers::new(alloc, decoder),
            shown: Vec::new(alloc),
            wanted: Vec::new(alloc),
            commits: Vec::new(alloc),
        };
        if let Some(number) = self.patch_all(alloc, &mut image, lines, &mut buffers)? {
            let fault = LineFault::NoEncoding;
            return Ok(Err(LineError { number, fault }));
        }
        if let Some(number) = self.first_other(alloc, &image, lines, &mut buffers)? {
            let fault = LineFault::Undecided;
            return Ok(Err(LineError { number, fault }));
        }
        Ok(Ok(image))
    }
}
