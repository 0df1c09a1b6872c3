//! The names of a whole pattern with their places.

ghost use Rattle.std.specs.Prelude.{◌≡◌, ◌++◌, [], ℕ, List, option_map, IfOk, OnOk};
ghost use Rattle.sl_decode_meaning.specs.Places.{bare_place, first_place, or_start};
ghost use Rattle.sl_decode_leaves.specs.Extents.{extent, leaves_at};
ghost use Rattle.sl_decode_leaves.specs.Joined.{all_leaves};

use crate::extents::{Extent, again};
use crate::pattern_leaves::PatternLeaves;
use std::alloc::{AllocError, Global};
use std::marker::Model;
use std::rc::Rc;

/// The names of a constructor's pattern with their places: those of the blocks round it, which it
/// shares with others, and its own. Contracts see the list of them.
#[derive(Drop)]
pub struct JoinedLeaves<'a> {
    patterns: Vec<Rc<PatternLeaves<'a>>>,
}

impl<'a> Model for JoinedLeaves<'a> {
    ghost use Rattle.std.specs.Coded.{codes};
    ghost use Rattle.std.specs.Prelude.{List};
    ghost use Rattle.sl_decode_leaves.specs.contracts.extents.Extent as e;
    ghost use Rattle.sl_decode_leaves.specs.Joined.{all_leaves};
    ghost use Rattle.sl_decode_leaves.specs.declared.leaves.Leaf as l;

    ghost Value = { List l.Leaf };

    ghost coded = { Prim.hlevel (codes, e.the_row.coded) };

    ghost view = { λ j. all_leaves j.patterns.items };
}

/// The place of a name's first occurrence in these patterns.
pub fn first_in<'l>(patterns: &'l [Rc<PatternLeaves>], name: &[u8]) -> Option<&'l Extent>
    ensures { (lengths : List ℕ) → option_map (λ e. extent e.now lengths) result
        ≡ first_place name.now (leaves_at lengths (all_leaves patterns.now)) }
{
    'patterns: for index in 0..patterns.len() {
        if let Some(place) = patterns[index].first(name) {
            return Some(place);
        }
    }
    None
}

/// The place where a name stands alone first in these patterns.
fn alone_in<'l>(patterns: &'l [Rc<PatternLeaves>], name: &[u8]) -> Option<&'l Extent>
    ensures { (lengths : List ℕ) → option_map (λ e. extent e.now lengths) result
        ≡ bare_place name.now (leaves_at lengths (all_leaves patterns.now)) }
{
    'patterns: for index in 0..patterns.len() {
        if let Some(place) = patterns[index].alone(name) {
            return Some(place);
        }
    }
    None
}

impl<'a> JoinedLeaves<'a> {
    /// Those of no pattern.
    pub(crate) fn new(alloc: Global) -> Self
        ensures { result ≡ [] }
    {
        JoinedLeaves {
            patterns: Vec::new(alloc),
        }
    }

    /// Adds those of a pattern.
    pub(crate) fn add(&mut self, its: Rc<PatternLeaves<'a>>) -> Result<(), AllocError>
        ensures { OnOk result (self.new ≡ self.old ++ its.entry.value.leaves.items) }
    {
        self.patterns.push(its)?;
        Ok(())
    }

    /// The patterns, one behind the other.
    pub fn patterns(&self) -> &[Rc<PatternLeaves<'a>>]
        ensures { all_leaves result.now ≡ self.now }
    {
        self.patterns.as_slice()
    }
}

/// The place of a name's first occurrence, or 0 where there is none.
pub fn place_of(leaves: &JoinedLeaves, name: &[u8]) -> Result<Extent, AllocError>
    ensures { IfOk result (λ r. (lengths : List ℕ) → extent r lengths
        ≡ or_start (first_place name.now (leaves_at lengths leaves.now))) }
{
    match first_in(leaves.patterns.as_slice(), name) {
        Some(place) => again(place),
        None => Ok(Extent::Fixed(0)),
    }
}

/// The place where a name stands alone, or 0 where it doesn't.
pub fn bare(leaves: &JoinedLeaves, name: &[u8]) -> Result<Extent, AllocError>
    ensures { IfOk result (λ r. (lengths : List ℕ) → extent r lengths
        ≡ or_start (bare_place name.now (leaves_at lengths leaves.now))) }
{
    match alone_in(leaves.patterns.as_slice(), name) {
        Some(place) => again(place),
        None => Ok(Extent::Fixed(0)),
    }
}
