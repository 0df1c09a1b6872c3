//! Ways to cut a text into parts.

ghost use Rattle.std.specs.Prelude.{◌≡◌, ◌≤◌, ◌∷◌, ◌++◌, [], List, ℕ, IfOk, IsTrue, OnOk, length};
ghost use Rattle.std.specs.Prelude.{map};
ghost use Rattle.std.specs.List.{flat_map};
ghost use Rattle.sl_asm_print.specs.Splits.{AddsSplits, HasSplit, IsBetween, KeepsTexts, pieces};
ghost use Rattle.sl_show.specs.declared.templates.Part.{Part as PartOf};

use sl_show::Part;
use std::alloc::{AllocError, Global};

/// A text for each part.
pub type Split<'x> = Vec<&'x [u8]>;

/// Adds the front, if no text is left.
fn add_whole<'x>(
    alloc: Global,
    text: &[u8],
    front: &[&'x [u8]],
    out: &mut Vec<Split<'x>>,
) -> Result<(), AllocError>
    ensures { OnOk result (AddsSplits [] text.now (pieces front.now)
        out.old.items out.new.items) }
{
    if !text.is_empty() {
        return Ok(());
    }
    let whole = copied(alloc, front)?;
    out.push(whole)?;
    Ok(())
}

/// The pieces once more.
fn copied<'x>(alloc: Global, pieces: &[&'x [u8]]) -> Result<Split<'x>, AllocError>
    ensures { IfOk result (λ copy. copy.items ≡ pieces.now) }
{
    pieces.iter().copied().collect(alloc)
}

/// The least and the greatest length that the first part can have in a text that the parts show.
fn lengths_of(first: &Part, rest: &[Part], text: &[u8]) -> (usize, usize)
    ensures within { result.1 ≤ length text.now }
    ensures between { (shows : PartOf → List ℕ) → KeepsTexts shows
        → flat_map shows (first.now ∷ rest.now) ≡ text.now
        → IsBetween result.0 result.1 (length (shows first.now)) }
{
    let whole = text.len();
    if let Part::Text(own) = first {
        let end = own.len().min(whole);
        return (end, end);
    }
    if rest.is_empty() {
        return (whole, whole);
    }
    (0, whole)
}

/// Adds the ways to cut the text into these parts, each after the front.
fn add_splits<'x>(
    alloc: Global,
    parts: &[Part],
    text: &'x [u8],
    front: &mut Split<'x>,
    out: &mut Vec<Split<'x>>,
) -> Result<(), AllocError>
    ensures front { OnOk result (front.new.items ≡ front.old.items) }
    ensures splits { OnOk result (AddsSplits parts.now text.now (pieces front.old.items)
        out.old.items out.new.items) }
{
    let Some((first, rest)) = parts.split_first() else {
        return add_whole(alloc, text, front, out);
    };
    let depth = front.len();
    let (least, most) = lengths_of(first, rest, text);
    'ends: for end in least..most + 1 {
        let (piece, more) = text.split_at(end);
        if may_be_cut(first, rest, piece, more) {
            front.push(piece)?;
            add_splits(alloc, rest, more, front, out)?;
            front.truncate(depth);
        }
    }
    Ok(())
}

/// Whether a part can have the text.
fn can_be(part: &Part, piece: &[u8]) -> bool
    ensures { (shows : PartOf → List ℕ) → KeepsTexts shows → shows part.now ≡ piece.now
        → IsTrue result }
{
    match part {
        Part::Text(text) => text.as_slice() == piece,
        _ => true,
    }
}

/// Whether the text is the front, with more behind it or not.
fn has_front(text: &[u8], front: &[u8]) -> bool
    ensures { (rest : List ℕ) → text.now ≡ front.now ++ rest → IsTrue result }
{
    if text.len() < front.len() {
        return false;
    }
    'bytes: for index in 0..front.len() {
        if text[index] != front[index] {
            return false;
        }
    }
    true
}

/// Whether the text may be shown by the parts: it begins with the first of them, if that is a text.
pub fn begins_with(parts: &[Part], text: &[u8]) -> bool
    ensures { (shows : PartOf → List ℕ) → KeepsTexts shows → text.now ≡ flat_map shows parts.now
        → IsTrue result }
{
    match parts.first() {
        Some(Part::Text(first)) => has_front(text, first),
        _ => true,
    }
}

/// Whether the first part can have the piece, and the rest the text after it.
fn may_be_cut(first: &Part, rest: &[Part], piece: &[u8], more: &[u8]) -> bool
    ensures { (shows : PartOf → List ℕ) → KeepsTexts shows → shows first.now ≡ piece.now
        → more.now ≡ flat_map shows rest.now → IsTrue result }
{
    can_be(first, piece) && begins_with(rest, more)
}

/// All ways to cut the text into the parts. The only error is want of memory.
pub fn splits<'x>(
    alloc: Global,
    parts: &[Part],
    text: &'x [u8],
) -> Result<Vec<Split<'x>>, AllocError>
    ensures { IfOk result (λ out. (shows : PartOf → List ℕ) → KeepsTexts shows
        → flat_map shows parts.now ≡ text.now → HasSplit (map shows parts.now) out.items) }
{
    let mut front = Vec::with_capacity(alloc, parts.len())?;
    let mut out = Vec::new(alloc);
    add_splits(alloc, parts, text, &mut front, &mut out)?;
    Ok(out)
}
