//! Marks on numbers.

ghost use Rattle.std.specs.Prelude.{◌≡◌, ◌≤◌, ℕ, length, IfOk, OnOk};
ghost use Rattle.sl_section_exports.specs.Spreading.{is_one_of};
ghost use Rattle.sl_section_exports.specs.Spreads.{Marks, mark_of};

use std::alloc::{AllocError, Global};

/// Whether a number has a mark.
pub fn is_marked(marks: &[bool], number: usize) -> bool
    ensures { result ≡ mark_of marks.now number }
{
    match marks.get(number) {
        Some(mark) => *mark,
        None => false,
    }
}

/// Makes room for the marks of the numbers below one.
fn widen(marks: &mut Vec<bool>, number: usize) -> Result<(), AllocError>
    ensures kept { OnOk result ((w : ℕ) → mark_of marks.new.items w ≡ mark_of marks.old.items w) }
    ensures room { OnOk result (number ≤ length marks.new.items) }
{
    'room: for _room in marks.len()..number {
        marks.push(false)?;
    }
    Ok(())
}

/// Marks a number.
pub fn mark(marks: &mut Vec<bool>, number: usize) -> Result<(), AllocError>
    ensures { OnOk result (Marks marks.old.items number marks.new.items) }
{
    widen(marks, number)?;
    if number < marks.len() {
        marks[number] = true;
    } else {
        marks.push(true)?;
    }
    Ok(())
}

/// Marks on these numbers.
pub fn marked(alloc: Global, numbers: &[usize]) -> Result<Vec<bool>, AllocError>
    ensures { IfOk result (λ marks. (v : ℕ)
        → mark_of marks.items v ≡ is_one_of numbers.now v) }
{
    let mut marks = Vec::new(alloc);
    'numbers: for index in 0..numbers.len() {
        mark(&mut marks, numbers[index])?;
    }
    Ok(marks)
}
