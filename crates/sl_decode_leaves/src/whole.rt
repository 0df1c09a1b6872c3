//! What is made of a whole pattern, of what is made of its parts.

ghost use Rattle.std.specs.Prelude.{◌≡◌, ◌++◌, IfOk, OnOk};
ghost use Rattle.sl_decode_meaning.specs.Actions.{Own};
ghost use Rattle.sl_decode_meaning.specs.Outcomes.{in_turn};
ghost use Rattle.sl_decode_meaning.specs.Values.{Site};
ghost use Rattle.sl_decode_leaves.specs.Looks.{look_step};
ghost use Rattle.sl_decode_leaves.specs.Wholes.{Joins, IsNothing};
ghost use Rattle.sl_spec.specs.declared.tables.Tables.{Tables as TablesOf};

use crate::extents::{Extent, again, greater};
use crate::joined::JoinedLeaves;
use crate::looks::Look;
use crate::pattern_leaves::PatternLeaves;
use std::alloc::{AllocError, Global};
use std::rc::Rc;

/// The names of a whole pattern with their places, the look-ups of its bare fields, and its length.
#[derive(Drop)]
pub struct Whole<'a> {
    pub leaves: JoinedLeaves<'a>,
    pub looks: Vec<Look>,
    pub length: Extent,
}

/// A copy of `look`.
fn look_again(look: &Look) -> Result<Look, AllocError>
    ensures { IfOk result (λ r. (t : TablesOf) (s : Site) (c : Own)
        → look_step t s r c ≡ look_step t s look.now c) }
{
    let place = again(&look.place)?;
    Ok(Look {
        field: look.field,
        place,
    })
}

/// Adds look-ups.
fn add_looks(looks: &[Look], all: &mut Vec<Look>) -> Result<(), AllocError>
    ensures { OnOk result ((t : TablesOf) (s : Site) (c : Own)
        → in_turn (look_step t s) all.new.items c
        ≡ in_turn (look_step t s) (all.old.items ++ looks.now) c) }
{
    'looks: for index in 0..looks.len() {
        let look = look_again(&looks[index])?;
        all.push(look)?;
    }
    Ok(())
}

impl<'a> Whole<'a> {
    /// What is made of no pattern.
    pub fn new(alloc: Global) -> Self
        ensures { IsNothing result }
    {
        Whole {
            leaves: JoinedLeaves::new(alloc),
            looks: Vec::new(alloc),
            length: Extent::Fixed(0),
        }
    }

    /// What is made of this pattern and of another one that are joined by `&`.
    pub fn join(self, alloc: Global, its: Rc<PatternLeaves<'a>>) -> Result<Self, AllocError>
        ensures { IfOk result (Joins self.entry its.entry.value) }
    {
        let mut leaves = self.leaves;
        let mut looks = self.looks;
        add_looks(its.looks.as_slice(), &mut looks)?;
        let beside = again(&its.length)?;
        let length = greater(alloc, self.length, beside)?;
        leaves.add(its)?;
        Ok(Whole {
            leaves,
            looks,
            length,
        })
    }
}
