//! The look-ups of bare fields.

ghost use Rattle.std.specs.Prelude.{◌≡◌, IfOk};
ghost use Rattle.sl_decode_meaning.specs.Actions.{Own, look};
ghost use Rattle.sl_decode_meaning.specs.Outcomes.{in_turn};
ghost use Rattle.sl_decode_meaning.specs.Values.{Site};
ghost use Rattle.sl_decode_leaves.specs.Extents.{leaf_at, leaves_at};
ghost use Rattle.sl_decode_leaves.specs.Looks.{look_step};
ghost use Rattle.sl_decode_leaves.specs.Steps.{maybe};

use crate::extents::{Extent, again};
use crate::fields::is_always_shown;
use crate::kinds::kind_of;
use crate::leaves::Leaf;
use crate::steps::add_step;
use sl_decode_meaning::Kind;
use sl_spec::{FieldId, Operand, Tables};
use std::alloc::{AllocError, Global};

/// A field that something is attached to and that stands alone: it has an entry. The place is that
/// of its token, in bytes from the node's own.
#[derive(Drop)]
pub struct Look {
    pub field: FieldId,
    pub place: Extent,
}

/// The look-up of a leaf; none where it never fails.
fn look_of(t: &Tables, operands: &[Operand], leaf: &Leaf) -> Result<Option<Look>, AllocError>
    ensures { IfOk result (λ o. (s : Site) (c : Own) → maybe (look_step t.now s) o c
        ≡ look t.now operands.now s (leaf_at s.lengths leaf.now) c) }
{
    if !leaf.alone {
        return Ok(None);
    }
    match kind_of(t, operands, leaf.name)? {
        Kind::Field(field) => {
            if is_always_shown(t, field) {
                return Ok(None);
            }
            let place = again(&leaf.place)?;
            Ok(Some(Look { field, place }))
        }
        Kind::Table(_) => Ok(None),
        Kind::Action(_) => Ok(None),
        Kind::Start => Ok(None),
        Kind::Next => Ok(None),
        Kind::Nothing => Ok(None),
    }
}

/// The look-ups of leaves.
pub(crate) fn looks_of(
    alloc: Global,
    t: &Tables,
    operands: &[Operand],
    leaves: &[Leaf],
) -> Result<Vec<Look>, AllocError>
    ensures { IfOk result (λ v. (s : Site) (c : Own) → in_turn (look_step t.now s) v.items c
        ≡ in_turn (look t.now operands.now s) (leaves_at s.lengths leaves.now) c) }
{
    let mut all = Vec::new(alloc);
    'leaves: for leaf in leaves {
        let step = look_of(t, operands, leaf)?;
        add_step(step, &mut all)?;
    }
    Ok(all)
}
