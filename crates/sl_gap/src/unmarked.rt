//! Constructors without a mark.

ghost use Rattle.std.specs.Prelude.{◌≡◌, IfOk, OnOk};
ghost use Rattle.sl_gap.specs.Findings.{AddsUnmarked, AreUnmarked};

use sl_spec::CtorId;
use std::alloc::{AllocError, Global};

/// The constructor of a number. 2^32 constructors would be want of memory.
pub fn ctor_of(number: usize) -> Result<CtorId, AllocError>
    ensures { IfOk result (λ id. id ≡ number) }
{
    match u32::try_from(number) {
        Ok(number) => Ok(CtorId(number)),
        Err(_) => Err(AllocError),
    }
}

/// Adds the constructor of a number, unless it has a mark.
fn add_unmarked(mark: bool, number: usize, ids: &mut Vec<CtorId>) -> Result<(), AllocError>
    ensures { OnOk result (AddsUnmarked mark number ids.old.items ids.new.items) }
{
    if mark {
        return Ok(());
    }
    let ctor = ctor_of(number)?;
    ids.push(ctor)?;
    Ok(())
}

/// The constructors without a mark, in order.
pub fn unmarked(alloc: Global, marks: &[bool]) -> Result<Vec<CtorId>, AllocError>
    ensures { IfOk result (λ ids. AreUnmarked marks.now ids.items) }
{
    let mut ids = Vec::new(alloc);
    'marks: for number in 0..marks.len() {
        add_unmarked(marks[number], number, &mut ids)?;
    }
    Ok(ids)
}
