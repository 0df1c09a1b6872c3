//! What `pcode` shows at a position.

ghost use Rattle.std.specs.Prelude.{length};
ghost use Rattle.sl_list_pcode.specs.Ready.{IsReady, shows_in};

use crate::shown::{PcodeBuffers, PcodeListing};
use sl_decode::address_size;
use sl_decode_contexts::{Commit, ContextMap};
use sl_list_instructions::{Lister, count_of, mark_of, put_line, window_at};
use std::alloc::AllocError;

impl Lister for PcodeListing<'_, '_, '_> {
    type Buffers = PcodeBuffers;

    ghost shows = { λ l. shows_in l };

    ghost end = { λ l. length l.image.now.bytes };

    ghost ready = { λ l. IsReady l };

    ghost start = { λ l. l.image.now.start };

    fn end(&self) -> usize {
        let image = self.image;
        image.bytes.len()
    }

    fn start(&self) -> u64 {
        let image = self.image;
        image.start
    }

    fn show(
        &self,
        at: usize,
        contexts: &ContextMap,
        buffers: &mut Self::Buffers,
        text: &mut Vec<u8>,
        commits: &mut Vec<Commit>,
    ) -> Result<usize, AllocError> {
        let tables = &self.translator.compiled.bound.tables;
        let size = address_size(tables);
        let alignment = usize::from(tables.alignment);
        let image = self.image;
        let address = image.base + at as u64;
        let window = window_at(image.bytes.as_slice(), at);
        let beyond = (address % u64::from(tables.alignment)) as usize;
        if beyond > 0 {
            let count = alignment - beyond;
            commits.clear();
            put_line(text, size, address, &window[..count], b"?align")?;
            return Ok(count);
        }
        let context = contexts.at(address);
        let walk = &mut buffers.walk;
        let shown = &mut buffers.text;
        let decoder = self.translator.decoder();
        match decoder.decode(&window, address, context, walk, shown, commits)? {
            Ok(instruction) => {
                let count = count_of(instruction.length)?;
                put_line(text, size, address, &window[..count], shown.as_slice())?;
                let after = instruction.after;
                self.translator
                    .push_lines(self.alloc, &window, address, after, walk, text)?;
                Ok(count)
            }
            Err(fault) => {
                commits.clear();
                put_line(text, size, address, &window[..alignment], mark_of(fault))?;
                Ok(alignment)
            }
        }
    }
}
