//! The names that stand for the same, and give the same, in all constructors inside blocks.

ghost use Rattle.std.specs.Prelude.{◌≡◌, ◌∷◌, [], ℕ, List, IfOk, IsTrue, OnOk};
ghost use Rattle.sl_decode_leaves.specs.Extents.{extent};
ghost use Rattle.sl_decode_leaves.specs.Joined.{all_leaves};
ghost use Rattle.sl_decode_plan.specs.Settled.{AddsUnsettled, IsSettled};

use crate::uses::{Used, is_in_token};
use sl_decode_leaves::{PatternLeaves, again, first_in};
use sl_spec::{Named, Tables};
use std::alloc::AllocError;
use std::rc::Rc;

/// Whether a name is that of a field which is read at the same place inside blocks with these
/// patterns, or hangs on no place.
fn is_settled(t: &Tables, patterns: &[Rc<PatternLeaves>], name: &[u8]) -> bool
    ensures { IsTrue result → IsSettled t.now (all_leaves patterns.now) name.now }
{
    match t.fields.index_of(name) {
        Some(index) => !is_in_token(t, index) || first_in(patterns, name).is_some(),
        None => false,
    }
}

/// A copy of `x`.
fn copy<'a>(x: &Used<'a>) -> Result<Used<'a>, AllocError>
    ensures name { IfOk result (λ r. r.name.now ≡ x.now.name.now) }
    ensures kind { IfOk result (λ r. r.kind ≡ x.now.kind) }
    ensures place { IfOk result (λ r. (lengths : List ℕ)
        → extent r.place lengths ≡ extent x.now.place lengths) }
{
    let place = again(&x.place)?;
    Ok(Used {
        name: x.name,
        kind: x.kind,
        place,
    })
}

/// Adds a name, unless it is settled or there.
fn add_name<'a>(
    t: &Tables,
    patterns: &[Rc<PatternLeaves>],
    x: &Used<'a>,
    all: &mut Named<'a, Used<'a>>,
) -> Result<(), AllocError>
    ensures { OnOk result
        (AddsUnsettled t.now (all_leaves patterns.now) (x.now ∷ []) all.old all.new) }
{
    if is_settled(t, patterns, x.name) {
        return Ok(());
    }
    if all.has(x.name) {
        return Ok(());
    }
    let left = copy(x)?;
    all.add(x.name, left)?;
    Ok(())
}

/// Adds those of the names that aren't settled inside blocks with these patterns.
pub(crate) fn add_unsettled<'a>(
    t: &Tables,
    patterns: &[Rc<PatternLeaves>],
    used: &Named<'a, Used<'a>>,
    all: &mut Named<'a, Used<'a>>,
) -> Result<(), AllocError>
    ensures { OnOk result
        (AddsUnsettled t.now (all_leaves patterns.now) used.now all.old all.new) }
{
    'used: for index in 0..used.len() {
        add_name(t, patterns, used.member(index), all)?;
    }
    Ok(())
}
