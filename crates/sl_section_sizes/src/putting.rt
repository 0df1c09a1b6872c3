//! Sizes by the constructors of the text.

ghost use Rattle.std.specs.Prelude.{◌≡◌, [], replicate, set, slice_get, IfOk, OnOk};
ghost use Rattle.sl_section_sizes.specs.Ordering as spec;
ghost use Rattle.sl_section_sizes.specs.Putting.{put_one};
ghost use Rattle.sl_section_sizes.specs.Sizings.{lists_of};

use sl_word::Size;
use std::alloc::{AllocError, Global};

/// No sizes.
fn no_sizes(alloc: Global, count: usize) -> Result<Vec<Vec<Size>>, AllocError>
    ensures { IfOk result (λ v. lists_of v.items ≡ replicate count []) }
{
    let mut all = Vec::new(alloc);
    'all: for _index in 0..count {
        all.push(Vec::new(alloc))?;
    }
    Ok(all)
}

/// Puts sizes at a number.
fn put(all: &mut Vec<Vec<Size>>, number: Option<usize>, sizes: Vec<Size>)
    ensures { lists_of all.new.items ≡ put_one (lists_of all.old.items) number sizes.items }
{
    if let Some(number) = number {
        if number < all.len() {
            all[number] = sizes;
        }
    }
}

/// The number at an index.
fn number_at(numbers: &[usize], index: usize) -> Option<usize>
    ensures { result ≡ slice_get numbers.now index }
{
    match numbers.get(index) {
        Some(number) => Some(*number),
        None => None,
    }
}

/// The sizes that were found for these numbers, by the constructors of the text, of which there are
/// `count`.
pub fn in_text_order(
    alloc: Global,
    count: usize,
    mut found: Vec<Vec<Size>>,
    numbers: &[usize],
) -> Result<Vec<Vec<Size>>, AllocError>
    ensures { IfOk result (λ v. lists_of v.items
        ≡ spec.in_text_order count (lists_of found.items) numbers.now) }
{
    let mut all = no_sizes(alloc, count)?;
    'rounds: for _round in 0..u64::MAX {
        match found.pop() {
            None => return Ok(all),
            Some(sizes) => put(&mut all, number_at(numbers, found.len()), sizes),
        }
    }
    Err(AllocError)
}
