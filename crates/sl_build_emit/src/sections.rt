//! Templates of sections at a node.

ghost use Rattle.std.specs.Prelude.{◌≡◌, map, option_map, IfOk};
ghost use Rattle.std.specs.Str.{bytes_eq};
ghost use Rattle.sl_build_emit.specs.Views.{frame_of, jump_inside, jumps_to, lists_of};
ghost use Rattle.sl_build_emit.specs.Views.{operations_of};
ghost use Rattle.sl_build_emit.specs.Views.{place_by, scan, setting_of};
ghost use Rattle.sl_meaning_sections.specs.Statements as meaning;
ghost use Rattle.sl_section_flat.specs.Views.{label_of};
ghost use Rattle.sl_build_template.specs.Placed as p;
ghost use Rattle.sl_build_template.specs.Views.{part_of, parts_of, tail_of};

use crate::operations::Operations;
use crate::parts::part;
use crate::site::Site;
use sl_build_template::{Part, Tail};
use sl_pcode::Op;
use sl_section_flat::Label;
use std::alloc::{AllocError, Global};

fn same_bytes(a: &[u8], b: &[u8]) -> bool
    ensures { result ≡ bytes_eq a.now b.now }
{
    a == b
}

fn same_label(a: Label<'_>, b: Label<'_>) -> bool
    ensures { result ≡ meaning.same_label (label_of a.entry) (label_of b.entry) }
{
    a.call == b.call && same_bytes(a.name, b.name)
}

/// Whether this label stands behind the pieces of a statement.
fn is_label(a: &Tail<'_>, l: Label<'_>) -> bool
    ensures { result ≡ p.tail_is (tail_of a.now) (label_of l.entry) }
{
    match a {
        Tail::Label(here) => same_label(*here, l),
        Tail::Nothing => false,
        Tail::Build(_) => false,
        Tail::Branch(_) => false,
        Tail::BranchIf(_, _) => false,
    }
}

/// The number of operations of a statement.
fn length_of(
    alloc: Global,
    site: &Site<'_>,
    lists: &[Vec<Op>],
    a: &Part<'_>,
) -> Result<u64, AllocError>
    ensures { IfOk result (λ n. n ≡ p.part_length site.now.top (setting_of site.now)
        (frame_of site.now) (lists_of lists.now) (part_of a.now)) }
{
    let mut scratch = Operations::new(alloc);
    part(site, lists, &mut scratch, 0, a)?;
    Ok(scratch.len() as u64)
}

/// The numbers of operations of statements.
fn lengths(
    alloc: Global,
    site: &Site<'_>,
    lists: &[Vec<Op>],
    parts: &[Part<'_>],
) -> Result<Vec<u64>, AllocError>
    ensures { IfOk result (λ v. v.items ≡ map (p.part_length site.now.top (setting_of site.now)
        (frame_of site.now) (lists_of lists.now)) (parts_of parts.now)) }
{
    let mut lengths = Vec::new(alloc);
    'parts: for index in 0..parts.len() {
        let n = length_of(alloc, site, lists, &parts[index])?;
        lengths.push(n)?;
    }
    Ok(lengths)
}

/// The label that a statement jumps to.
fn jump_label<'a>(a: &Tail<'a>) -> Option<Label<'a>>
    ensures { option_map label_of result ≡ jumps_to (tail_of a.now) }
{
    match a {
        Tail::Branch(l) => Some(*l),
        Tail::BranchIf(l, _) => Some(*l),
        Tail::Nothing => None,
        Tail::Build(_) => None,
        Tail::Label(_) => None,
    }
}

/// Whether a statement jumps to a label.
fn jumps_inside(parts: &[Part<'_>]) -> bool
    ensures { result ≡ jump_inside (parts_of parts.now) }
{
    'parts: for index in 0..parts.len() {
        if jump_label(&parts[index].tail).is_some() {
            return true;
        }
    }
    false
}

/// The place of a label: behind the operations of the statements before it.
fn label_place(parts: &[Part<'_>], lengths: &[u64], l: Label<'_>) -> Result<u64, AllocError>
    ensures { IfOk result (λ k. k ≡ scan (parts_of parts.now) lengths.now (label_of l.entry) 0) }
{
    let mut place: u64 = 0;
    'parts: for index in 0..parts.len() {
        if lengths.len() <= index {
            return Ok(place);
        }
        if is_label(&parts[index].tail, l) {
            return Ok(place);
        }
        place = place.checked_add(lengths[index]).ok_or(AllocError)?;
    }
    Ok(place)
}

/// The place of the label that a statement jumps to; 0 where it jumps to none.
fn place_of(parts: &[Part<'_>], lengths: &[u64], a: &Part<'_>) -> Result<u64, AllocError>
    ensures { IfOk result (λ k. k ≡ place_by (λ l. scan (parts_of parts.now) lengths.now l 0)
        (jumps_to (part_of a.now).tail)) }
{
    match jump_label(&a.tail) {
        None => Ok(0),
        Some(l) => label_place(parts, lengths, l),
    }
}

/// The operations of statements, with the numbers of operations of each.
fn all_parts(
    alloc: Global,
    site: &Site<'_>,
    lists: &[Vec<Op>],
    parts: &[Part<'_>],
    lengths: &[u64],
) -> Result<Vec<Op>, AllocError>
    ensures { IfOk result (λ v. operations_of v.items ≡ p.parts_code site.now.top
        (setting_of site.now) (frame_of site.now) (lists_of lists.now)
        (λ l. scan (parts_of parts.now) lengths.now l 0) 0 (parts_of parts.now)) }
{
    let mut out = Operations::new(alloc);
    'parts: for index in 0..parts.len() {
        let place = place_of(parts, lengths, &parts[index])?;
        part(site, lists, &mut out, place, &parts[index])?;
    }
    Ok(out.into_list())
}

/// The numbers of operations of statements as far as places of labels hang on them: none where no
/// statement jumps to a label.
fn counts(
    alloc: Global,
    site: &Site<'_>,
    lists: &[Vec<Op>],
    parts: &[Part<'_>],
) -> Result<Vec<u64>, AllocError>
    ensures { IfOk result (λ v. p.parts_code site.now.top (setting_of site.now)
        (frame_of site.now) (lists_of lists.now) (λ l. scan (parts_of parts.now) v.items l 0) 0
        (parts_of parts.now) ≡ p.placed site.now.top (setting_of site.now)
        (frame_of site.now) (lists_of lists.now) (parts_of parts.now)) }
{
    if !jumps_inside(parts) {
        return Ok(Vec::new(alloc));
    }
    let counts = lengths(alloc, site, lists, parts)?;
    Ok(counts)
}

/// The operations of a template, by what the operands of a node stand for and their lists.
pub fn place(
    alloc: Global,
    site: &Site<'_>,
    lists: &[Vec<Op>],
    parts: &[Part<'_>],
) -> Result<Vec<Op>, AllocError>
    ensures { IfOk result (λ v. operations_of v.items ≡ p.placed site.now.top
        (setting_of site.now) (frame_of site.now) (lists_of lists.now) (parts_of parts.now)) }
{
    let counts = counts(alloc, site, lists, parts)?;
    let out = all_parts(alloc, site, lists, parts, &counts)?;
    Ok(out)
}
