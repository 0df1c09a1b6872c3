//! Steps that are made one by one.

ghost use Rattle.std.specs.Prelude.{◌≡◌, ◌++◌, OnOk};
ghost use Rattle.sl_decode_leaves.specs.Steps.{items};

use std::alloc::AllocError;

/// Adds the step, if there is one.
pub fn add_step<T: Drop>(step: Option<T>, all: &mut Vec<T>) -> Result<(), AllocError>
    ensures { OnOk result (all.new.items ≡ all.old.items ++ items step) }
{
    if let Some(step) = step {
        all.push(step)?;
    }
    Ok(())
}
