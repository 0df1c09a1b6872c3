//! Packed files, read.

ghost use Rattle.std.specs.Prelude.{IfOk};
ghost use Rattle.sl_store_write.specs.Packs.{IsFileOf};
ghost use Rattle.sl_store_format.specs.Packed.{Packed as PackedOf, written_here};
ghost use Rattle.sl_store_bytes.specs.Verdicts.{at_end};
ghost use Rattle.sl_store.specs.Answers.{Answers, Opens};
ghost use Rattle.sl_store.specs.Numbers.{AreNumbered};
ghost use Rattle.sl_store.specs.Reads.{Ends, ReadsPacked};

use sl_ast::items::Spec;
use sl_store_bytes::{Bytes, Stop};
use sl_store_read::{all_items, file_names};
use sl_store_write::{MARK, Packed};
use std::alloc::Global;

/// Why bytes aren't opened.
#[derive(Debug, Drop)]
pub enum UnpackError {
    /// The mark isn't at the front.
    NotPacked,
    /// The bytes begin a packed file and end too early.
    Cut,
    /// The first byte after which no packed file goes on, counted from 0.
    Damaged(usize),
    NoMemory,
}

/// What is after the mark.
#[tactic(auto, unfolding(sl_store_format::specs::Packed::written_here))]
fn parts<'a>(alloc: Global, bytes: &mut Bytes<'a>) -> Result<Packed<'a>, Stop>
    ensures { ReadsPacked (written_here bytes.old) result bytes.new }
{
    let files = file_names(alloc, bytes)?;
    let count = files.len() as u32;
    let placed = all_items(alloc, bytes, count)?;
    Ok(Packed {
        files,
        places: placed.places,
        spec: Spec {
            items: placed.items,
        },
    })
}

/// What the bytes after the mark hold, all of them.
fn whole<'a>(alloc: Global, left: &'a [u8]) -> Result<Packed<'a>, Stop>
    ensures { Ends (at_end (written_here left.now)) result }
{
    let mut bytes = Bytes::new(left);
    let packed = parts(alloc, &mut bytes)?;
    if bytes.left() == 0 {
        Ok(packed)
    } else {
        Err(bytes.refuse())
    }
}

/// What a packed file holds. Names of the tree are borrowed from the bytes, and in place of the index of its
/// first token each item has its number, which is that of its place.
pub fn unpack<'a>(alloc: Global, bytes: &'a [u8]) -> Result<Packed<'a>, UnpackError>
    // Each answer comes only where it is due.
    ensures answers { Answers bytes.now result }
    // What `pack` gives is opened, unless memory runs out.
    ensures opens { (p : PackedOf) → IsFileOf p bytes.now → Opens p result }
    ensures numbers { IfOk result AreNumbered }
{
    let Some(left) = bytes.strip_prefix(MARK) else {
        return Err(UnpackError::NotPacked);
    };
    match whole(alloc, left) {
        Ok(packed) => Ok(packed),
        Err(Stop::Cut) => Err(UnpackError::Cut),
        Err(Stop::Damaged(count)) => Err(UnpackError::Damaged(bytes.len() - count)),
        Err(Stop::NoMemory) => Err(UnpackError::NoMemory),
    }
}
