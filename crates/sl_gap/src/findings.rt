//! What is found of each constructor.

ghost use Rattle.std.specs.Prelude.{IfOk, List};
ghost use Rattle.sl_ast.specs.Trees.{Constructor};
ghost use Rattle.sl_ast.specs.Unfolding.{Placed};
ghost use Rattle.sl_gap.specs.Findings.{AreKept, IsAt, TellsFinding};
ghost use Rattle.sl_gap_tables.specs.Tables.{AreSettled};
ghost use Rattle.sl_spec.specs.Unfolded.{placed};

use crate::holes::hole_of;
use crate::report::Hole;
use sl_conflict::TableSets;
use sl_decode_plan::Plan;
use sl_gap_operands::{first_operand, sets_some};
use sl_spec::{Ctor, CtorId, Tables, Unfolded};
use std::alloc::{AllocError, Global};

/// What the report needs of one constructor.
#[derive(Clone, Copy, Debug)]
pub struct Finding {
    /// Its least hole, if it is examined and has one.
    pub hole: Option<Hole>,
    /// Whether it sets no field of the context, and has at most one table operand, for which it is
    /// examined.
    pub plain: bool,
}

/// What is found of a constructor.
pub fn find(
    alloc: Global,
    t: &Tables,
    tables: &[TableSets],
    number: CtorId,
    ctor: &Ctor,
    of: &Unfolded,
    plan: &Plan,
) -> Result<Finding, AllocError>
    requires { AreSettled tables.now }
    ensures { IfOk result (λ f. (cs : List (Placed Constructor)) → AreKept t.now cs tables.now
        → IsAt t.now cs number ctor.now (placed of.now) plan.now
        → TellsFinding t.now cs number ctor.now f) }
{
    let sets = sets_some(t, ctor.operands.as_slice(), of)?;
    if sets {
        return Ok(Finding {
            hole: None,
            plain: false,
        });
    }
    let Some(operand) = first_operand(plan) else {
        return Ok(Finding {
            hole: None,
            plain: plan.slots.len() == 0,
        });
    };
    let hole = hole_of(alloc, tables, ctor.table, number, &operand)?;
    Ok(Finding {
        hole,
        plain: plan.slots.len() == 1,
    })
}
