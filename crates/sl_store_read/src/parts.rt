//! Lists and optional parts of trees.

ghost use Rattle.std.specs.Prelude.{◌≡◌, ◌≤◌, ◌+◌, List, IfOk, length, map, option_map};
ghost use Rattle.sl_store_bytes.specs.Lists as lists;
ghost use Rattle.sl_store_bytes.specs.Lists.{collected, same_state, some_more};
ghost use Rattle.sl_store_bytes.specs.Reader.{Reader};
ghost use Rattle.sl_store_bytes.specs.Reads.{Reads, now_of, seen_by};

use sl_store_bytes::{Bytes, Stop};
use sl_store_phrases::name;
use std::alloc::Global;

/// A tree that is in lists or may lack.
pub trait Part<'a>: Drop {
    ghost Tree: { Type 0 };

    ghost view: { Self → Tree };

    ghost reader: { Reader Tree };

    /// Reads one.
    fn read(alloc: Global, bytes: &mut Bytes<'a>) -> Result<Self, Stop>
        ensures { Reads view (reader bytes.old) result bytes.new };
}

/// Reads so many members behind those that were found.
fn members<'a, P: Part<'a>>(
    alloc: Global,
    bytes: &mut Bytes<'a>,
    count: u64,
    found: &mut Vec<P>,
) -> Result<(), Stop>
    ensures reads { Reads (λ _. seen_by P.view found.new) (collected (seen_by P.view found.old)
        (some_more (λ left u. P.reader) same_state count tt bytes.old)) result bytes.new }
    ensures many { IfOk result (λ _. length found.new.items ≡ length found.old.items + count) }
{
    'rounds: for _round in 0..count {
        found.push(P::read(alloc, bytes)?)?;
    }
    Ok(())
}

/// A list of at most `most` members.
pub fn listed<'a, P: Part<'a>>(
    alloc: Global,
    bytes: &mut Bytes<'a>,
    most: u64,
) -> Result<Vec<P>, Stop>
    ensures reads { Reads (seen_by P.view) (lists.listed 0 most (λ left u. P.reader) same_state tt
        bytes.old) result bytes.new }
    ensures few { IfOk result (λ found. length found.items ≤ most) }
{
    let count = bytes.number(0, most)?;
    let mut found = Vec::new(alloc);
    members(alloc, bytes, count, &mut found)?;
    Ok(found)
}

/// A list.
#[tactic(auto, unfolding(sl_store_bytes::specs::Lists::list_of))]
pub fn list<'a, P: Part<'a>>(alloc: Global, bytes: &mut Bytes<'a>) -> Result<Vec<P>, Stop>
    ensures { Reads (seen_by P.view) (lists.list_of P.reader bytes.old) result bytes.new }
{
    let found = listed(alloc, bytes, u64::MAX)?;
    Ok(found)
}

impl<'a, P: Part<'a>> Part<'a> for Vec<P> {
    ghost Tree = { List P.Tree };

    ghost view = { seen_by P.view };

    ghost reader = { lists.list_of P.reader };

    fn read(alloc: Global, bytes: &mut Bytes<'a>) -> Result<Vec<P>, Stop> {
        list(alloc, bytes)
    }
}

/// A part that may lack.
#[tactic(auto, unfolding(sl_store_bytes::specs::Lists::option))]
pub fn option<'a, P: Part<'a>>(alloc: Global, bytes: &mut Bytes<'a>) -> Result<Option<P>, Stop>
    ensures { Reads (option_map P.view) (lists.option P.reader bytes.old) result bytes.new }
{
    if bytes.below(2)? == 0 {
        return Ok(None);
    }
    let part = P::read(alloc, bytes)?;
    Ok(Some(part))
}

/// A list that is an optional part: its first member, and the list of the others.
#[tactic(auto, unfolding(sl_store_bytes::specs::Lists::separated, sl_store_bytes::specs::Lists::list_of))]
pub fn separated<'a, P: Part<'a>>(alloc: Global, bytes: &mut Bytes<'a>) -> Result<Vec<P>, Stop>
    ensures { Reads (seen_by P.view) (lists.separated P.reader bytes.old) result bytes.new }
{
    if bytes.below(2)? == 0 {
        return Ok(Vec::new(alloc));
    }
    let first = P::read(alloc, bytes)?;
    let mut found = Vec::new(alloc);
    found.push(first)?;
    let count = bytes.number(0, u64::MAX)?;
    members(alloc, bytes, count, &mut found)?;
    Ok(found)
}

impl<'a> Part<'a> for &'a [u8] {
    ghost use Rattle.sl_ast.specs.Trees as t;
    ghost use Rattle.sl_store_bytes.specs.Words as words;

    ghost Tree = { t.Name };

    ghost view = { now_of };

    ghost reader = { words.name };

    fn read(_alloc: Global, bytes: &mut Bytes<'a>) -> Result<&'a [u8], Stop> {
        name(bytes)
    }
}
