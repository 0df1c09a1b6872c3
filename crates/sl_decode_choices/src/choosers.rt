//! Choosers of all tables.

ghost use Rattle.std.specs.Prelude.{◌≡◌, ◌%◌, ◌^◌, All, IfOk, List};
ghost use Rattle.sl_ast.specs.Trees.{Constructor};
ghost use Rattle.sl_ast.specs.Unfolding.{Placed};
ghost use Rattle.sl_decode_choices.specs.Choices.{IsChoiceOf, in_range};
ghost use Rattle.sl_decode_choices.specs.Choosers.{chosen};
ghost use Rattle.sl_conflict.specs.Kept.{IsPaired};
ghost use Rattle.sl_spec_constructors.specs.Listed.{AreListed};
ghost use Rattle.sl_conflict.specs.Soundness.{IsSound};
ghost use Rattle.sl_conflict.specs.TableTests.{AreSetsOf};
ghost use Rattle.sl_spec.specs.declared.tables.Tables.{Tables as TablesOf};

use sl_choose::Chooser;
use sl_conflict::TableSets;
use sl_cube::Point;
use sl_decode::Choose;
use sl_spec::{CtorId, TableId};
use std::alloc::{AllocError, Global};

/// A chooser for each table, by the numbers of the tables.
#[derive(Drop)]
pub struct Choosers {
    tables: Vec<Chooser>,
}

/// A point by its bits, which are in range.
fn point_of(bytes: u128, context: u64) -> Point
    ensures { result ≡ in_range (record { bytes = bytes; context = context }) }
{
    Point { bytes, context }
}

impl Choosers {
    /// The choosers of tables by their sets. Where these are the sets of sound tables, what they
    /// choose is the choice of each table at each point.
    pub fn new(alloc: Global, tables: &[TableSets]) -> Result<Self, AllocError>
        requires { All IsPaired tables.now }
        ensures { IfOk result (λ choosers. (t : TablesOf) (cs : List (Placed Constructor))
            → AreListed t cs → IsSound t cs → AreSetsOf t cs tables.now
            → IsChoiceOf t cs (chosen choosers)) }
    {
        let mut choosers = Vec::new(alloc);
        'tables: for index in 0..tables.len() {
            let table = &tables[index];
            let chooser = Chooser::build(alloc, &table.ctors, &table.sets)?;
            choosers.push(chooser)?;
        }
        Ok(Choosers { tables: choosers })
    }
}

impl Choose for Choosers {
    ghost chosen = { λ choosers table point. chosen choosers table point };

    fn choose(&self, table: TableId, point: &Point) -> Option<CtorId> {
        let TableId(number) = table;
        let chooser = self.tables.get(number as usize)?;
        let point = point_of(point.bytes, point.context);
        let ctor = chooser.pick(&point)?;
        Some(CtorId(ctor))
    }
}
