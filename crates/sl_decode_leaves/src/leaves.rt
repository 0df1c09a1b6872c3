//! The names of a pattern with their places.

ghost use Rattle.std.specs.Prelude.{◌≡◌, ◌++◌, ◌∷◌, ℕ, List, option_map, IfOk, IsTrue, OnOk};
ghost use Rattle.sl_decode_meaning.specs.Places.{Leaf as LeafAt, bare_place, first_place};
ghost use Rattle.sl_decode_leaves.specs.Extents.{extent, leaf_at, leaves_at};
ghost use Rattle.sl_spec.specs.Tables.{Name};

use crate::extents::{Extent, again, is_same};
use sl_spec::{Entry, Named};
use std::alloc::{AllocError, Global};

/// A name in a pattern, whether it stands alone, and its place.
#[derive(Drop)]
pub struct Leaf<'a> {
    pub name: &'a [u8],
    pub alone: bool,
    pub place: Extent,
}

impl<'a> Entry for Leaf<'a> {
    ghost name_of = { λ x. x.name.now };
}

/// The place of a name's first occurrence, where each name has one.
pub(crate) fn first_of<'l>(leaves: &'l Named<'_, Leaf<'_>>, name: &[u8]) -> Option<&'l Extent>
    ensures { (lengths : List ℕ) → option_map (λ e. extent e.now lengths) result
        ≡ first_place name.now (leaves_at lengths leaves.now) }
{
    match leaves.get(name) {
        Some(leaf) => Some(&leaf.place),
        None => None,
    }
}

/// Adds a name, unless it is there.
fn add_first<'a>(leaf: &Leaf<'a>, all: &mut Named<'a, Leaf<'a>>) -> Result<(), AllocError>
    ensures { OnOk result ((lengths : List ℕ) (name : Name) (rest : List LeafAt)
        → first_place name (leaves_at lengths all.new ++ rest)
        ≡ first_place name (leaves_at lengths all.old ++ leaf_at lengths leaf.now ∷ rest)) }
{
    if all.has(leaf.name) {
        return Ok(());
    }
    let place = again(&leaf.place)?;
    all.add(
        leaf.name,
        Leaf {
            name: leaf.name,
            alone: leaf.alone,
            place,
        },
    )?;
    Ok(())
}

/// The names, each once, with its first place.
pub(crate) fn firsts_in<'a>(
    alloc: Global,
    leaves: &[Leaf<'a>],
) -> Result<Named<'a, Leaf<'a>>, AllocError>
    ensures { IfOk result (λ v. (lengths : List ℕ) (name : Name)
        → first_place name (leaves_at lengths v) ≡ first_place name (leaves_at lengths leaves.now)) }
{
    let mut all = Named::new(alloc);
    'leaves: for index in 0..leaves.len() {
        add_first(&leaves[index], &mut all)?;
    }
    Ok(all)
}

/// The place where a name stands alone first.
pub(crate) fn alone_of<'l>(leaves: &'l [Leaf], name: &[u8]) -> Option<&'l Extent>
    ensures { (lengths : List ℕ) → option_map (λ e. extent e.now lengths) result
        ≡ bare_place name.now (leaves_at lengths leaves.now) }
{
    'leaves: for leaf in leaves {
        if leaf.alone && leaf.name == name {
            return Some(&leaf.place);
        }
    }
    None
}

/// Adds a name that stands alone, unless it is there.
fn add_alone<'a>(leaf: &Leaf<'a>, all: &mut Vec<Leaf<'a>>) -> Result<(), AllocError>
    ensures { OnOk result ((lengths : List ℕ) (name : Name) (rest : List LeafAt)
        → bare_place name (leaves_at lengths all.new.items ++ rest)
        ≡ bare_place name (leaves_at lengths all.old.items ++ leaf_at lengths leaf.now ∷ rest)) }
{
    if !leaf.alone {
        return Ok(());
    }
    if alone_of(all.as_slice(), leaf.name).is_some() {
        return Ok(());
    }
    let place = again(&leaf.place)?;
    all.push(Leaf {
        name: leaf.name,
        alone: true,
        place,
    })?;
    Ok(())
}

/// The names that stand alone, each once, with its first place.
pub(crate) fn alone_in<'a>(alloc: Global, leaves: &[Leaf<'a>]) -> Result<Vec<Leaf<'a>>, AllocError>
    ensures { IfOk result (λ v. (lengths : List ℕ) (name : Name)
        → bare_place name (leaves_at lengths v.items)
        ≡ bare_place name (leaves_at lengths leaves.now)) }
{
    let mut all = Vec::new(alloc);
    'leaves: for index in 0..leaves.len() {
        add_alone(&leaves[index], &mut all)?;
    }
    Ok(all)
}

/// Whether both are the same name, alone or not, and their places have the same parts.
fn is_same_leaf(a: &Leaf, b: &Leaf) -> bool
    ensures { IsTrue result → (lengths : List ℕ) → leaf_at lengths a.now ≡ leaf_at lengths b.now }
{
    a.name == b.name && a.alone == b.alone && is_same(&a.place, &b.place)
}

/// Whether these are the same names at the same places, one by one.
pub(crate) fn are_same_leaves(some: &[Leaf], others: &[Leaf]) -> bool
    ensures { IsTrue result → (lengths : List ℕ)
        → leaves_at lengths some.now ≡ leaves_at lengths others.now }
{
    if some.len() != others.len() {
        return false;
    }
    'leaves: for index in 0..some.len() {
        if !is_same_leaf(&some[index], &others[index]) {
            return false;
        }
    }
    true
}
