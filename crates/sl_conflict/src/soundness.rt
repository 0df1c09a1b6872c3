//! The verdict on all tables.

ghost use Rattle.std.specs.Prelude.{IfErr, IfOk};
ghost use Rattle.sl_conflict.specs.Soundness.{IsSound};
ghost use Rattle.sl_conflict.specs.TableTests.{AreSetsOf, Refuses, Stand};
ghost use Rattle.sl_spec.specs.Numbers.{AreNumbered};
ghost use Rattle.sl_spec.specs.Unfolded.{all_placed};

use crate::judging::{Checked, ConflictError, check};
use sl_shape::{ShapeError, shape};
use sl_spec::{Tables, Unfolded};
use std::alloc::Global;

/// Why the tables of a specification aren't sound. Either error may be want of memory.
#[derive(Clone, Copy, Debug, PartialEq, Eq)]
pub enum Unsound {
    /// A pattern has a fault: the first one, tables being taken by their heights.
    Shape(ShapeError),
    /// No pattern has a fault, and a table isn't settled: the first one of the text.
    Conflict(ConflictError),
}

impl From<ShapeError> for Unsound {
    ghost use Rattle.std.specs.Prelude.{◌≡◌};
    ghost use Rattle.sl_conflict.specs.declared.soundness.Unsound.{Unsound};

    ghost from_gives = { λ shape error. error ≡ Unsound.Shape shape };

    fn from(error: ShapeError) -> Self {
        Unsound::Shape(error)
    }
}

impl From<ConflictError> for Unsound {
    ghost use Rattle.std.specs.Prelude.{◌≡◌};
    ghost use Rattle.sl_conflict.specs.declared.soundness.Unsound.{Unsound};

    ghost from_gives = { λ conflict error. error ≡ Unsound.Conflict conflict };

    fn from(error: ConflictError) -> Self {
        Unsound::Conflict(error)
    }
}

/// The sets of all tables, where no pattern has a fault and each table is settled. `constructors` are
/// those of `t` as they are written, in the same order, with numbers that tell the blocks round them
/// apart; the clauses speak of tables as `bind` gives them.
pub fn judge(alloc: Global, t: &Tables, constructors: &[Unfolded]) -> Result<Checked, Unsound>
    requires { AreNumbered constructors.now }
    ensures sound { IfOk result (λ checked. Stand t.now (all_placed constructors.now)
        → IsSound t.now (all_placed constructors.now)) }
    ensures sets { IfOk result (λ checked. Stand t.now (all_placed constructors.now)
        → AreSetsOf t.now (all_placed constructors.now) checked.tables.items) }
    ensures refused { IfErr result (λ why. Stand t.now (all_placed constructors.now)
        → Refuses t.now (all_placed constructors.now) why) }
{
    let shapes = shape(alloc, t, constructors)?;
    let checked = check(alloc, t, shapes.sets)?;
    Ok(checked)
}
