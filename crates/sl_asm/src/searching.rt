//! A list of a region that is an encoding: the region is narrowed, and where its least list isn't
//! one, both halves by an open bit are searched.

ghost use Rattle.std.specs.Prelude.{◌≤◌, ◌<◌, IfOk, IfSome, MatchOption, length};
ghost use Rattle.std.specs.Int.{from_bool};
ghost use Rattle.sl_asm.specs.Assembling.{HasNoneIf, HasNoneIn, PassesAs};
ghost use Rattle.sl_asm.specs.Wanted.{IsReady};

use crate::wanted::Wanted;
use sl_asm_fit::{Cell, Test, least, passing};
use sl_asm_known::{Bit, half};
use std::alloc::{AllocError, Global};

/// Whether the cell leaves the bit at a place open.
fn leaves_open(cell: &Cell, place: u32) -> bool
    requires { place < 8 }
{
    u32::from(cell.mask) & (1 << place) == 0
}

/// The place of an open bit of a cell, if it has one.
fn open_place(cell: &Cell) -> Option<u32>
    ensures { IfSome result (λ place. place < 8) }
{
    for place in 0..8u32 {
        if leaves_open(cell, place) {
            return Some(place);
        }
    }
    None
}

/// The first open bit of the region, if it has one.
fn first_open(region: &[Cell]) -> Option<Bit>
    ensures { IfSome result (λ bit. (bit.index < length region.now) × (bit.place < 8)) }
{
    'cells: for index in 0..region.len() {
        if let Some(place) = open_place(&region[index]) {
            return Some(Bit { index, place });
        }
    }
    None
}

/// A list of the region that is an encoding, or `None` exactly where none is. `room` is how often a
/// bit is tried at most; behind that the lists are tried one by one. The only error is want of
/// memory.
#[cycle(searching)]
pub fn searched(
    alloc: Global,
    wanted: &Wanted<'_, '_, '_, '_, '_>,
    region: &[Cell],
    room: usize,
) -> Result<Option<Vec<u8>>, AllocError>
    requires ready { IsReady wanted.now }
    requires long { length region.now ≤ 255 }
    ensures { IfOk result (λ found. MatchOption found (HasNoneIn wanted.now region.now)
        (λ bytes. PassesAs wanted.now (length region.now) bytes.items)) }
{
    if room == 0 {
        return tried(alloc, wanted, region);
    }
    let narrow = wanted.narrowed(alloc, region)?;
    let Some(cells) = narrow else {
        return Ok(None);
    };
    let bytes = least(alloc, &cells)?;
    let passes = wanted.test(alloc, &bytes)?;
    if passes {
        return Ok(Some(bytes));
    }
    let Some(bit) = first_open(&cells) else {
        return tried(alloc, wanted, &cells);
    };
    let clear = searched_half(alloc, wanted, &cells, &bit, false, room - 1)?;
    if clear.is_some() {
        return Ok(clear);
    }
    let set = searched_half(alloc, wanted, &cells, &bit, true, room - 1)?;
    Ok(set)
}

/// The same of the lists whose bit is as given.
#[cycle(searching)]
fn searched_half(
    alloc: Global,
    wanted: &Wanted<'_, '_, '_, '_, '_>,
    region: &[Cell],
    bit: &Bit,
    is_set: bool,
    room: usize,
) -> Result<Option<Vec<u8>>, AllocError>
    requires ready { IsReady wanted.now }
    requires long { length region.now ≤ 255 }
    requires within { bit.now.index < length region.now }
    requires low { bit.now.place < 8 }
    ensures { IfOk result (λ found. MatchOption found
        (HasNoneIf wanted.now region.now bit.now (from_bool is_set))
        (λ bytes. PassesAs wanted.now (length region.now) bytes.items)) }
{
    let lists = half(alloc, region, bit, is_set)?;
    let Some(cells) = lists else {
        return Ok(None);
    };
    searched(alloc, wanted, &cells, room)
}

/// The same by trying the lists one by one.
fn tried(
    alloc: Global,
    wanted: &Wanted<'_, '_, '_, '_, '_>,
    region: &[Cell],
) -> Result<Option<Vec<u8>>, AllocError>
    requires ready { IsReady wanted.now }
    ensures { IfOk result (λ found. MatchOption found (HasNoneIn wanted.now region.now)
        (λ bytes. PassesAs wanted.now (length region.now) bytes.items)) }
{
    let found = passing(alloc, wanted, region)?;
    Ok(found)
}
