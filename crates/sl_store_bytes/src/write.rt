//! Writing numbers.

ghost use Rattle.std.specs.Prelude.{◌≡◌, ◌++◌, IfOk};
ghost use Rattle.sl_store_bytes.specs.Numbers as numbers;

use std::alloc::AllocError;

/// A number of at most `groups` bytes after the first.
#[tactic(auto, unfolding(crate::specs::Numbers::groups))]
fn put_groups(out: &mut Vec<u8>, groups: u8, number: u64) -> Result<(), AllocError>
    requires { numbers.HasGroups groups number }
    ensures { IfOk result (λ _. out.new.items ≡ out.old.items ++ numbers.groups groups number) }
{
    if groups == 0 || number < 128 {
        out.push(number as u8)?;
        return Ok(());
    }
    out.push(128 + (number % 128) as u8)?;
    put_groups(out, groups - 1, number / 128)?;
    Ok(())
}

/// Writes a number, in the fewest bytes.
pub fn put_number(out: &mut Vec<u8>, number: u64) -> Result<(), AllocError>
    ensures { IfOk result (λ _. out.new.items ≡ out.old.items ++ numbers.write_number number) }
{
    put_groups(out, 9, number)?;
    Ok(())
}
