//! `assemble`: an encoding of a text, or that there is none.

ghost use Rattle.std.specs.Prelude.{◌≤◌, IfOk, MatchOption};
ghost use Rattle.sl_asm.specs.Assembling.{Covers, HasNone, HasNoneOf, PassesAs, PassesShortest};
ghost use Rattle.sl_asm.specs.Shortest.{EncodesShortest};
ghost use Rattle.sl_asm.specs.Wanted.{HasNoEncoding, HasNoEncodingOf, IsEncodingOf, IsReady};
ghost use Rattle.sl_asm_narrow.specs.Readers.{IsReader, tables_of, written_of};
ghost use Rattle.sl_ast.specs.Views.{items_of};
ghost use Rattle.sl_bind_compile.specs.Compiled.{IsCompiled};
ghost use Rattle.sl_bind_compile.specs.Outcomes.{all_constructors};
ghost use Rattle.sl_list_instructions.specs.Disassemblies.{StandsFor};

use crate::searching::searched;
use crate::wanted::{Span, Wanted};
use sl_asm_fit::all_lists;
use sl_asm_narrow::Reader;
use sl_bind_compile::Compiled;
use sl_list_instructions::{Disassembly, MOST_BYTES};
use std::alloc::{AllocError, Global};

/// An encoding of this length, or `None` exactly where there is none.
fn of_length(
    alloc: Global,
    wanted: &Wanted<'_, '_, '_, '_, '_>,
    length: usize,
) -> Result<Option<Vec<u8>>, AllocError>
    requires ready { IsReady wanted.now }
    requires long { length ≤ 255 }
    ensures { IfOk result (λ found. MatchOption found (HasNoneOf wanted.now length)
        (λ bytes. PassesAs wanted.now length bytes.items)) }
{
    let region = all_lists(alloc, length)?;
    let found = searched(alloc, wanted, &region, 8 * length + 1)?;
    Ok(found)
}

/// The same where no encoding has a length that isn't among these.
fn of_span(
    alloc: Global,
    wanted: &Wanted<'_, '_, '_, '_, '_>,
    span: &Span,
    length: usize,
) -> Result<Option<Vec<u8>>, AllocError>
    requires ready { IsReady wanted.now }
    requires covers { Covers wanted.now span.now }
    requires long { length ≤ 255 }
    ensures { IfOk result (λ found. MatchOption found (HasNoneOf wanted.now length)
        (λ bytes. PassesAs wanted.now length bytes.items)) }
{
    if !span.has(length) {
        return Ok(None);
    }
    let found = of_length(alloc, wanted, length)?;
    Ok(found)
}

/// A shortest encoding, or `None` exactly where there is none.
fn shortest(
    alloc: Global,
    wanted: &Wanted<'_, '_, '_, '_, '_>,
) -> Result<Option<Vec<u8>>, AllocError>
    requires { IsReady wanted.now }
    ensures { IfOk result (λ found. MatchOption found (HasNone wanted.now)
        (λ bytes. PassesShortest wanted.now bytes.items)) }
{
    let region = all_lists(alloc, MOST_BYTES)?;
    let lengths = wanted.lengths(alloc, &region)?;
    let Some(span) = lengths else {
        return Ok(None);
    };
    for shorter in 0..MOST_BYTES {
        let found = of_span(alloc, wanted, &span, shorter + 1)?;
        if found.is_some() {
            return Ok(found);
        }
    }
    Ok(None)
}

/// A shortest encoding of the text at the address from the context, or `None` exactly where there is
/// none. The only error is want of memory.
///
/// Of several as short it is the first that a search finds which narrows the bits of the bytes by
/// what the text says of them: the constructors that can print it, with the fields and
/// the action names that they show. Where the text fixes those, they are found at once; bits that it
/// leaves open, as those of a hidden operand, are tried, in the worst case all of them.
pub fn assemble<'d, 't, 'a>(
    alloc: Global,
    compiled: &'d Compiled<'a>,
    disassembly: &'d Disassembly<'t, 'a>,
    text: &[u8],
    address: u64,
    context: u64,
) -> Result<Option<Vec<u8>>, AllocError>
    requires compiled { IsCompiled compiled.now }
    requires stands { StandsFor disassembly.now compiled.now.bound.tables
        (all_constructors (items_of compiled.now.bound.spec)) }
    ensures { IfOk result (λ found. MatchOption found
        (HasNoEncoding compiled.now.bound.tables
        (all_constructors (items_of compiled.now.bound.spec)) address context text.now)
        (λ bytes. EncodesShortest compiled.now.bound.tables
        (all_constructors (items_of compiled.now.bound.spec)) address context text.now
        bytes.items)) }
{
    let reader = Reader::new(alloc, compiled, disassembly)?;
    let wanted = Wanted {
        reader: &reader,
        text,
        address,
        context,
    };
    let found = shortest(alloc, &wanted)?;
    Ok(found)
}

/// Bytes of this length that are an encoding of the text at the address from the context, or `None`
/// exactly where there are none, as where it isn't between 1 and 255. The only error is want of
/// memory.
pub fn assemble_as_long(
    alloc: Global,
    reader: &Reader<'_, '_, '_>,
    text: &[u8],
    address: u64,
    context: u64,
    length: usize,
) -> Result<Option<Vec<u8>>, AllocError>
    requires { IsReader reader.now }
    ensures { IfOk result (λ found. MatchOption found
        (HasNoEncodingOf (tables_of reader.now) (written_of reader.now) address context text.now
        length) (λ bytes. IsEncodingOf (tables_of reader.now) (written_of reader.now) address
        context text.now length bytes.items)) }
{
    if length > MOST_BYTES {
        return Ok(None);
    }
    let wanted = Wanted {
        reader,
        text,
        address,
        context,
    };
    let found = of_length(alloc, &wanted, length)?;
    Ok(found)
}
