//! An image that is listed by a reader.

ghost use Rattle.std.specs.Prelude.{◌+◌, ◌^◌, ◌≤◌, length};

use crate::buffers::Buffers;
use crate::reader::Reader;
use sl_decode::address_size;
use sl_decode_contexts::{Commit, ContextMap};
use sl_list_instructions::{Lister, count_of, put_line, window_at};
use std::alloc::AllocError;

/// An image that is listed by a reader.
#[derive(Drop)]
pub struct Lines<'l, 't, 'a> {
    pub reader: &'l Reader<'t, 'a>,
    pub image: &'l [u8],
    /// The address of the first byte.
    pub base: u64,
    /// The context where no commit counts.
    pub start: u64,
    ghost fits: { base + length image.now ≤ 2 ^ 64 },
}

impl Lister for Lines<'_, '_, '_> {
    ghost use Rattle.std.specs.Prelude.{length};
    ghost use Rattle.sl_session.specs.Lines.{shows_in};

    type Buffers = Buffers;

    ghost shows = { λ l. shows_in l };

    ghost end = { λ l. length l.image.now };

    ghost ready = { λ _. Unit {0} };

    ghost start = { λ l. l.start };

    fn end(&self) -> usize {
        self.image.len()
    }

    fn start(&self) -> u64 {
        self.start
    }

    fn show(
        &self,
        at: usize,
        contexts: &ContextMap,
        buffers: &mut Self::Buffers,
        text: &mut Vec<u8>,
        commits: &mut Vec<Commit>,
    ) -> Result<usize, AllocError> {
        let size = address_size(&self.reader.compiled.bound.tables);
        let address = self.base + at as u64;
        let window = window_at(self.image, at);
        let length = self.reader.read_line(contexts, &window, address, buffers)?;
        let count = count_of(length)?;
        let shown = &window[..count];
        put_line(text, size, address, shown, buffers.text.as_slice())?;
        commits.clear();
        commits.extend_from_slice(buffers.commits.as_slice())?;
        Ok(count)
    }
}
