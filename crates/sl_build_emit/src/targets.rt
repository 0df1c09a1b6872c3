//! Targets.

ghost use Rattle.std.specs.Prelude.{◌≡◌, ◌≤◌, ◌%◌, ◌^◌, slice_index, IfOk};
ghost use Rattle.sl_faithful_code.specs.Statements as step;
ghost use Rattle.sl_build_emit.specs.Views.{frame_of, number_of, reference_of, references_of};
ghost use Rattle.sl_build_emit.specs.Views.{setting_of};
ghost use Rattle.sl_section_equations.specs.Equations.{size_at};
ghost use Rattle.sl_meaning_sections.specs.Values as meaning;
ghost use Rattle.sl_build_template.specs.Placed as p;
ghost use Rattle.sl_word.specs.Numbers as z;
ghost use Rattle.sl_word.specs.Sizes.{byte_counts};

use crate::reference::{Number, Reference};
use crate::site::Site;
use crate::varnodes::residue;
use sl_build_template::{Given, cut, of_address};
use sl_word::Size;
use std::alloc::AllocError;

/// The size of an address of the default space.
fn address_size(site: &Site<'_>) -> Result<Size, AllocError>
    ensures value { IfOk result (λ n. n
        ≡ size_at (slice_index (byte_counts site.now.spaces.now) site.now.default.0)) }
    ensures bytes { IfOk result (λ n. n.bytes
        ≡ slice_index (byte_counts site.now.spaces.now) site.now.default.0) }
    ensures few { IfOk result (λ n. n.bytes ≤ 8) }
{
    match site.spaces.get(site.default.0 as usize) {
        Some(n) => Ok(of_address(*n)),
        None => Err(AllocError),
    }
}

/// A number as an address of the default space.
fn plain_target(site: &Site<'_>, v: Number) -> Result<u64, AllocError>
    ensures { IfOk result (λ a. a
        ≡ z.residue (slice_index (byte_counts site.now.spaces.now) site.now.default.0)
        (number_of v)) }
{
    let n = address_size(site)?;
    Ok(residue(v, n))
}

/// A number that is read at a size, as an address of the default space. The equations leave at most
/// 8 bytes to a number that is a pointer.
fn plain_pointer(site: &Site<'_>, v: Number, width: Size) -> Result<u64, AllocError>
    ensures { IfOk result (λ a. a ≡ z.residue width.bytes (number_of v)
        % 256 ^ slice_index (byte_counts site.now.spaces.now) site.now.default.0) }
{
    let n = address_size(site)?;
    if width.bytes > 8 {
        return Err(AllocError);
    }
    Ok(cut(residue(v, width), n))
}

/// The address that a pointer has, where it is a number.
fn pointer_address(site: &Site<'_>, pointer: &Reference, width: Size) -> Result<u64, AllocError>
    ensures { IfOk result (λ a. a ≡ step.pointer_address site.now.top (setting_of site.now)
        (frame_of site.now) (reference_of pointer.now) width) }
{
    match pointer {
        Reference::Plain(v) => plain_pointer(site, *v, width),
        Reference::Storage(_) => Ok(0),
        Reference::Local(_, _, _) => Ok(0),
        Reference::Memory(_, _, _, _) => Ok(0),
    }
}

/// The address that a reference is as a target.
fn target_address(site: &Site<'_>, r: &Reference) -> Result<u64, AllocError>
    ensures { IfOk result (λ a. a ≡ step.target_address site.now.top (setting_of site.now)
        (frame_of site.now) (reference_of r.now)) }
{
    match r {
        Reference::Plain(v) => plain_target(site, *v),
        Reference::Storage(_) => Ok(0),
        Reference::Local(_, _, _) => Ok(0),
        Reference::Memory(_, _, pointer, width) => pointer_address(site, pointer, *width),
    }
}

fn operand_address(site: &Site<'_>, i: u32) -> Result<u64, AllocError>
    ensures { IfOk result (λ a. a ≡ step.target_address site.now.top (setting_of site.now)
        (frame_of site.now) (meaning.reference_at (references_of site.now.refs.now) i)) }
{
    match site.refs.get(i as usize) {
        Some(r) => target_address(site, r),
        None => plain_target(site, Number::Natural(0)),
    }
}

/// What is given, as an address of the default space.
pub(crate) fn given_address(site: &Site<'_>, a: Given) -> Result<u64, AllocError>
    ensures { IfOk result (λ address. address
        ≡ step.target_address site.now.top (setting_of site.now) (frame_of site.now)
        (p.given site.now.top (setting_of site.now) (frame_of site.now) a)) }
{
    match a {
        Given::Operand(i) => operand_address(site, i),
        Given::Start => plain_target(site, site.start),
        Given::Next => plain_target(site, site.next),
    }
}

// Distances have four bytes.
const DISTANCES: u64 = 4_294_967_296;

/// The distance from a place of the list to another.
pub(crate) fn relative(from: u64, to: u64) -> Result<u64, AllocError>
    ensures { IfOk result (λ d. d ≡ step.relative from to) }
{
    let far = to.checked_add(DISTANCES).ok_or(AllocError)?;
    let distance = far.checked_sub(from).ok_or(AllocError)?;
    Ok(distance % DISTANCES)
}
