//! Packed specifications.

ghost use Rattle.std.specs.Prelude.{IfOk};
ghost use Rattle.sl_store_write.specs.Packs.{IsFileOf};
ghost use Rattle.sl_store_write.specs.Parts.{packed_of, parts_of};
ghost use Rattle.sl_store_format.specs.Packed.{IsPacked};

use crate::items::put_items;
use crate::places::Places;
use crate::put::put_list;
use sl_ast::items::{Item, Spec};
use sl_preproc::Place;
use std::alloc::{AllocError, Global};

/// The bytes at the front of a packed specification.
pub const MARK: &[u8] = b"SLEIGHP1";

/// A specification with the names of its files and a place for each item, in text order, a block's before those
/// of the items inside it.
#[derive(Drop)]
pub struct Packed<'a> {
    pub files: Vec<String>,
    pub places: Vec<Place>,
    pub spec: Spec<'a>,
}

/// The file of a specification that may be packed, whose parts are lent: the names of its files, the
/// place of each item, and its items. The items have no fault, names, texts and numbers are such,
/// there are as many places as items, and each place is in one of the files.
pub fn pack_parts(
    alloc: Global,
    files: &[String],
    places: &[Place],
    items: &[Item<'_>],
) -> Result<Vec<u8>, AllocError>
    ensures { IsPacked (parts_of files.now places.now items.now)
        → IfOk result (λ v. IsFileOf (parts_of files.now places.now items.now) v.items) }
{
    let mut out = Vec::new(alloc);
    out.extend_from_slice(MARK)?;
    put_list(&mut out, files)?;
    let mut places = Places::new(places);
    put_items(&mut out, items, &mut places)?;
    Ok(out)
}

/// The file of a specification that may be packed, as [`pack_parts`] gives it.
pub fn pack(alloc: Global, packed: &Packed<'_>) -> Result<Vec<u8>, AllocError>
    ensures { IsPacked (packed_of packed.now) → IfOk result (λ v. IsFileOf (packed_of packed.now) v.items) }
{
    let files = packed.files.as_slice();
    let places = packed.places.as_slice();
    pack_parts(alloc, files, places, packed.spec.items.as_slice())
}
