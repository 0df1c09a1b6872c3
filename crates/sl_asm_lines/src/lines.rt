//! `asm` of whole listings: the image of an edited one.

ghost use Rattle.std.specs.Prelude.{◌≤◌, IfOk, MatchResult};
ghost use Rattle.sl_asm_lines.specs.Patched.{Fails, Gives, TextFails, TextGives};
ghost use Rattle.sl_asm_lines.specs.Readers.{decoding_of, own_tables_of};
ghost use Rattle.sl_asm_narrow.specs.Readers.{IsReader};
ghost use Rattle.sl_ast.specs.Views.{items_of};
ghost use Rattle.sl_bind_compile.specs.Compiled.{IsCompiled};
ghost use Rattle.sl_bind_compile.specs.Outcomes.{all_constructors};
ghost use Rattle.sl_decode_meaning.specs.Actions.{address_bytes};
ghost use Rattle.sl_list_instructions.specs.Disassemblies.{StandsFor};

use crate::encoding::Encoder;
use crate::faults::LineError;
use crate::listing::EditedListing;
use crate::patching::Patcher;
use crate::reading::read_listing;
use sl_asm::{Reader, assemble_as_long};
use sl_bind_compile::Compiled;
use sl_decode::{Walk, address_size};
use sl_list_instructions::{Disassembly, Specified};
use std::alloc::{AllocError, Global};

impl Encoder for Reader<'_, '_, '_> {
    ghost use Rattle.sl_asm_lines.specs.Readers.{decoding_of};
    ghost use Rattle.sl_asm_narrow.specs.Readers.{IsReader};

    ghost decodes = { λ r. decoding_of r };

    ghost ready = { λ r. IsReader r };

    fn encode(
        &self,
        alloc: Global,
        text: &[u8],
        address: u64,
        context: u64,
        count: u8,
    ) -> Result<Option<Vec<u8>>, AllocError> {
        let found = assemble_as_long(alloc, self, text, address, context, usize::from(count))?;
        Ok(found)
    }
}

/// The image of an edited listing, by the disassembly that the reader has.
fn patch_by(
    alloc: Global,
    reader: &Reader<'_, '_, '_>,
    text: &[u8],
    start: u64,
) -> Result<Result<Vec<u8>, LineError>, AllocError>
    requires reads { IsReader reader.now }
    requires aligned { 1 ≤ (own_tables_of reader.now).alignment }
    ensures { IfOk result (λ r. MatchResult r
        (λ image. TextGives (decoding_of reader.now) (address_bytes (own_tables_of reader.now))
        (own_tables_of reader.now).alignment start text.now image.items)
        (λ e. TextFails (decoding_of reader.now) (address_bytes (own_tables_of reader.now))
        (own_tables_of reader.now).alignment start text.now e.number e.fault)) }
{
    let disassembly = reader.disassembly;
    let tables = disassembly.disassembler.tables;
    let address_size = address_size(tables);
    let listing = match read_listing(alloc, address_size, text)? {
        Ok(listing) => listing,
        Err(error) => return Ok(Err(error)),
    };
    let decoder = Specified {
        disassembler: &disassembly.disassembler,
        templates: disassembly.templates.as_slice(),
        constructors: disassembly.constructors.as_slice(),
    };
    let EditedListing { base, image, lines } = listing;
    let patcher = Patcher {
        decoder: &decoder,
        encoder: reader,
        base,
        address_size,
        alignment: tables.alignment,
        start,
    };
    patcher.patch(alloc, image, lines.as_slice(), Walk::new(alloc))
}

/// The image of which a text is the listing, from the context `start` on, where no commit counts. The
/// text is one as `list` prints it, and may have been edited: each line that isn't listed so is given
/// an encoding of its text with as many bytes as it shows, in turn. So a text that wasn't edited gives
/// the bytes that it shows. Else the line at fault.
///
/// An encoding is looked for as if zeros followed it. Where later lines make another instruction of
/// it, the text is `Undecided`, though other encodings may do. May run out of memory at any point.
pub fn patch_lines<'d, 't, 'a>(
    alloc: Global,
    compiled: &'d Compiled<'a>,
    disassembly: &'d Disassembly<'t, 'a>,
    text: &[u8],
    start: u64,
) -> Result<Result<Vec<u8>, LineError>, AllocError>
    requires compiled { IsCompiled compiled.now }
    requires stands { StandsFor disassembly.now compiled.now.bound.tables
        (all_constructors (items_of compiled.now.bound.spec)) }
    ensures { IfOk result (λ r. MatchResult r
        (λ image. Gives compiled.now.bound.tables
        (all_constructors (items_of compiled.now.bound.spec)) start text.now image.items)
        (λ e. Fails compiled.now.bound.tables
        (all_constructors (items_of compiled.now.bound.spec)) start text.now e.number e.fault)) }
{
    let reader = Reader::new(alloc, compiled, disassembly)?;
    patch_by(alloc, &reader, text, start)
}
