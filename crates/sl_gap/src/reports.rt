//! `gaps`: the report on a specification.

ghost use Rattle.std.specs.Prelude.{◌≡◌, ◌↔◌, ℕ, IfOk, IsTrue, List, None, Some, slice_get};
ghost use Rattle.sl_ast.specs.Trees.{Constructor};
ghost use Rattle.sl_ast.specs.Unfolding.{Placed};
ghost use Rattle.sl_ast.specs.Views.{items_of};
ghost use Rattle.sl_bind_compile.specs.Compiled.{IsCompiled};
ghost use Rattle.sl_bind_compile.specs.Outcomes.{all_constructors};
ghost use Rattle.sl_decode_meaning.specs.Meanings.{says};
ghost use Rattle.sl_decode_plan.specs.Plans.{done_by};
ghost use Rattle.sl_gap.specs.Findings.{AddsHole, AreFindings, AreKept, LooksSure};
ghost use Rattle.sl_gap.specs.Reports.{IsReport};
ghost use Rattle.sl_gap.specs.Views.{report_view};
ghost use Rattle.sl_gap_tables.specs.Tables.{AreSettled};
ghost use Rattle.sl_spec.specs.Unfolded.{all_placed};

use crate::findings::{Finding, find};
use crate::report::{Hole, Report};
use crate::unmarked::{ctor_of, unmarked};
use sl_bind_compile::Compiled;
use sl_conflict::TableSets;
use sl_cube::Point;
use sl_decode_plan::{Plan, make_plans};
use sl_gap_tables::{chosen_constructors, table_gaps};
use sl_spec::{Tables, Unfolded, unfolded_constructors};
use std::alloc::{AllocError, Global};

/// The holes so far, and whether each constructor so far is plain.
#[derive(Drop)]
struct Found {
    holes: Vec<Hole>,
    plain: bool,
}

impl Found {
    /// Adds what is found of one more constructor.
    fn add(&mut self, found: &Finding) -> Result<(), AllocError>
        ensures { IfOk result (λ done. AddsHole self.old found.now self.new) }
    {
        self.plain = self.plain && found.plain;
        if let Some(hole) = found.hole {
            self.holes.push(hole)?;
        }
        Ok(())
    }
}

/// What is found of all constructors.
fn findings(
    alloc: Global,
    t: &Tables,
    tables: &[TableSets],
    constructors: &[Unfolded],
    plans: &[Plan],
) -> Result<Found, AllocError>
    requires settled { AreSettled tables.now }
    requires plans { (number : ℕ) → done_by t.now plans.now number
        ≡ says t.now (all_placed constructors.now) number }
    ensures { IfOk result (λ f. AreKept t.now (all_placed constructors.now) tables.now
        → AreFindings t.now (all_placed constructors.now) f) }
{
    let mut all = Found {
        holes: Vec::new(alloc),
        plain: true,
    };
    'constructors: for index in 0..constructors.len() {
        let Some(ctor) = t.constructors.get(index) else {
            return Ok(all);
        };
        let Some(plan) = plans.get(index) else {
            return Ok(all);
        };
        let number = ctor_of(index)?;
        let found = find(alloc, t, tables, number, ctor, &constructors[index], plan)?;
        all.add(&found)?;
    }
    Ok(all)
}

/// Whether the first of the tables leaves no point.
fn is_whole(gaps: &[Option<Point>]) -> bool
    ensures { IsTrue result ↔ (slice_get gaps.now 0 ≡ Some None) }
{
    match gaps.get(0) {
        Some(gap) => gap.is_none(),
        None => false,
    }
}

/// Whether each constructor is plain, the first table leaves no point, and there is no hole.
fn is_sure(found: &Found, gaps: &[Option<Point>]) -> bool
    ensures { IsTrue result ↔ LooksSure found.now gaps.now }
{
    if !found.plain {
        return false;
    }
    if found.holes.len() != 0 {
        return false;
    }
    is_whole(gaps)
}

/// The report on a specification. The only error is want of memory.
pub fn gaps(alloc: Global, compiled: &Compiled<'_>) -> Result<Report, AllocError>
    requires { IsCompiled compiled.now }
    ensures { IfOk result (λ r. IsReport compiled.now.bound.tables
        (all_constructors (items_of compiled.now.bound.spec)) (report_view r)) }
{
    let t = &compiled.bound.tables;
    let kept = compiled.checked.tables.as_slice();
    let constructors = unfolded_constructors(alloc, compiled.bound.spec.items.as_slice())?;
    let plans = make_plans(alloc, t, constructors.as_slice())?;
    let tables = table_gaps(alloc, kept)?;
    let marks = chosen_constructors(alloc, kept, t.constructors.len())?;
    let shadowed = unmarked(alloc, marks.as_slice())?;
    let found = findings(alloc, t, kept, constructors.as_slice(), plans.as_slice())?;
    let sure = is_sure(&found, tables.as_slice());
    Ok(Report {
        tables,
        shadowed,
        holes: found.holes,
        sure,
    })
}
