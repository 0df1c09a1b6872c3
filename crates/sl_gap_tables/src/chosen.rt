//! Which constructors are chosen at some point.

ghost use Rattle.std.specs.Prelude.{◌≡◌, ◌↔◌, List, All, IfOk, IsTrue, Some, length, slice_get, true};
ghost use Rattle.sl_ast.specs.Trees.{Constructor};
ghost use Rattle.sl_ast.specs.Unfolding.{Placed};
ghost use Rattle.sl_conflict.specs.Kept.{HasChoices, IsPaired};
ghost use Rattle.sl_conflict.specs.TableTests.{AreSetsOf};
ghost use Rattle.sl_gap_tables.specs.Tables.{AreSettled, IsMarkedIf, MarksTable, TellChosen};
ghost use Rattle.sl_spec_constructors.specs.Listed.{AreListed};
ghost use Rattle.sl_spec.specs.declared.tables.Tables.{Tables as TablesOf};

use sl_conflict::TableSets;
use sl_cube_marks::chosen_sets;
use std::alloc::{AllocError, Global};

/// Whether the set at the index has a mark.
fn has_mark(marks: &[bool], index: usize) -> bool
    ensures { IsTrue result ↔ (slice_get marks.now index ≡ Some true) }
{
    match marks.get(index) {
        Some(mark) => *mark,
        None => false,
    }
}

/// Gives the constructor its mark, if its set has one.
fn mark(marks: &mut Vec<bool>, ctor: u32, chosen: bool)
    ensures { IsMarkedIf marks.old.items ctor chosen marks.new.items }
{
    let number = ctor as usize;
    if chosen && number < marks.len() {
        marks[number] = true;
    }
}

/// Marks the constructors of a table that are chosen at some point.
fn mark_table(alloc: Global, kept: &TableSets, marks: &mut Vec<bool>) -> Result<(), AllocError>
    requires settled { HasChoices kept.now }
    requires paired { IsPaired kept.now }
    ensures counted { IfOk result (λ done. length marks.new.items ≡ length marks.old.items) }
    ensures marked { IfOk result (λ done. MarksTable kept.now marks.old.items marks.new.items) }
{
    let chosen = chosen_sets(alloc, &kept.sets)?;
    'places: for place in 0..kept.ctors.len() {
        mark(marks, kept.ctors[place], has_mark(&chosen, place));
    }
    Ok(())
}

/// For each constructor whether it is chosen at some point. The only error is want of memory.
pub fn chosen_constructors(
    alloc: Global,
    tables: &[TableSets],
    count: usize,
) -> Result<Vec<bool>, AllocError>
    requires settled { AreSettled tables.now }
    requires paired { All IsPaired tables.now }
    ensures { IfOk result (λ marks. (t : TablesOf) (cs : List (Placed Constructor))
        → AreListed t cs → AreSetsOf t cs tables.now → length t.constructors ≡ count → TellChosen t cs marks.items) }
{
    let mut marks = vec![in alloc; false; count]?;
    for kept in tables {
        mark_table(alloc, kept, &mut marks)?;
    }
    Ok(marks)
}
