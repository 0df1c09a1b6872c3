//! Lists of a region that pass a test, one by one.

ghost use Rattle.std.specs.Prelude.{◌↔◌, ℕ, List, IsTrue, MatchOption, IfOk};
ghost use Rattle.sl_asm_fit.specs.Lists.{EndsIn, HasFront, HasNone, IsPassing, Without};

use crate::Cell;
use crate::cells::fits;
use std::alloc::{AllocError, Global};

/// A test of lists of bytes.
pub trait Test {
    /// The list passes.
    ghost passes: { Self → List ℕ → Type 0 };

    /// What has to hold before anything is tested.
    ghost ready: { Self → Type 0 };

    /// Whether the list passes. The only error is want of memory.
    fn test(&self, alloc: Global, bytes: &[u8]) -> Result<bool, AllocError>
        requires { ready self.now }
        ensures { IfOk result (λ answer. IsTrue answer ↔ passes self.now bytes.now) };
}

/// Whether some list of the region that begins with the front passes; then it is put in its place.
fn pass_from<T: Test>(
    alloc: Global,
    test: &T,
    region: &[Cell],
    front: &mut Vec<u8>,
) -> Result<bool, AllocError>
    requires ready { T.ready test.now }
    requires front { HasFront region.now front.old.items }
    ensures { IfOk result (EndsIn (T.passes test.now) region.now front.old.items front.new.items) }
{
    let place = front.len();
    if place == region.len() {
        return test.test(alloc, front);
    }
    let cell = region[place];
    for value in 0..256u32 {
        let byte = value as u8;
        if fits(&cell, byte) {
            front.push(byte)?;
            let found = pass_from(alloc, test, region, front)?;
            if found {
                return Ok(true);
            }
            front.truncate(place);
        }
    }
    Ok(false)
}

/// A list of the region that passes the test, or `None` exactly where none does. The only error is
/// want of memory.
pub fn passing<T: Test>(
    alloc: Global,
    test: &T,
    region: &[Cell],
) -> Result<Option<Vec<u8>>, AllocError>
    requires { T.ready test.now }
    ensures { IfOk result (λ found. MatchOption found (HasNone (T.passes test.now) region.now)
        (λ bytes. IsPassing (T.passes test.now) region.now bytes.items)) }
{
    let mut bytes = Vec::new(alloc);
    let found = pass_from(alloc, test, region, &mut bytes)?;
    if found { Ok(Some(bytes)) } else { Ok(None) }
}
