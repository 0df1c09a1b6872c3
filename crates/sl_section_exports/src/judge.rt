//! The first broken one of rules 38 and 39.

ghost use Rattle.std.specs.Prelude.{◌≡◌, IfOk};
ghost use Rattle.sl_spec.specs.Unfolded.{all_placed};
ghost use Rattle.sl_section_exports.specs.Exports as spec;
ghost use Rattle.sl_section_exports.specs.Views.{sections_of};

use crate::misused::misused_place;
use crate::unexported::unexported_place;
use sl_section_flat::Section;
use sl_spec::{Tables, Unfolded};
use sl_spec_tables::{LateFault, Place};
use std::alloc::{AllocError, Global};

/// The place of the constructor that weighs too much.
fn heavy_place(t: &Tables, heavy: Option<usize>) -> Option<Place>
    ensures { result ≡ spec.heavy_place t.now heavy }
{
    match heavy {
        Some(index) => match t.constructors.get(index) {
            Some(ctor) => Some(Place::Item(ctor.item)),
            None => None,
        },
        None => None,
    }
}

/// The first broken one of rules 38 and 39, with its place, and `None` where both hold.
/// `constructors` are those of `t` as they are written, in the same order. `heavy` is the number of
/// the first that weighs too much, and `sections` has the flat sections of those before it, or of
/// all, without steps for `unimpl`. Rule 38 stands at the first constructor that weighs too much, at
/// which its table exports in some of its constructors only, or that uses a table operand without
/// export. The only error is want of memory.
pub fn judge_sections<'s, 'a>(
    alloc: Global,
    t: &Tables<'a>,
    constructors: &[Unfolded<'s, 'a>],
    sections: &[Section<'a>],
    heavy: Option<usize>,
) -> Result<Option<LateFault>, AllocError>
    ensures { IfOk result (λ fault. fault ≡ spec.section_fault t.now
        (all_placed constructors.now) (sections_of sections.now) heavy) }
{
    if let Some(place) = unexported_place(alloc, t, constructors, sections)? {
        return Ok(Some(LateFault { rule: 38, place }));
    }
    if let Some(place) = heavy_place(t, heavy) {
        return Ok(Some(LateFault { rule: 38, place }));
    }
    if let Some(place) = misused_place(alloc, t, constructors, sections)? {
        return Ok(Some(LateFault { rule: 39, place }));
    }
    Ok(None)
}
