//! Sizes that equations fix.

ghost use Rattle.std.specs.Prelude.{◌≡◌, All};
ghost use Rattle.sl_sizes.specs.Solutions.{IsAbout};

use sl_sizes::*;
use sl_word::Size;
use std::alloc::Global;
use std::test::Fail;

/// The sizes of up to three variables that are inferred, with 1 for the others.
fn inferred(alloc: Global, variables: u32, equations: &[Equation]) -> Result<[u8; 3], SizeError>
    requires { All (IsAbout variables) equations.now }
{
    let sizes = infer(alloc, variables, equations)?;
    let mut bytes = [1; 3];
    for (byte, size) in bytes.iter_mut().zip(&sizes) {
        *byte = size.get();
    }
    Ok(bytes)
}

#[test]
fn rows(rt: HostRuntime) -> Result<(), Fail> {
    let two = Size { bytes: 2 };
    let four = Size { bytes: 4 };
    let alloc = rt.alloc();
    let given = [Equation::Is(0, four), Equation::Less(1, 0, 3)];
    assert_eq!(rt; inferred(alloc, 2, &given), Ok([4, 1, 1]));
    let clash = [Equation::Is(0, two), Equation::Less(1, 0, 2)];
    assert_eq!(rt; inferred(alloc, 2, &clash), Err(SizeError::Clash(1)));
    let open = [Equation::Equal(0, 1)];
    assert_eq!(rt; inferred(alloc, 2, &open), Err(SizeError::Unfixed(0)));
    assert_eq!(rt; inferred(alloc, 0, &[]), Ok([1, 1, 1]));
    let ends = [Equation::Less(1, 0, 15)];
    assert_eq!(rt; inferred(alloc, 2, &ends), Ok([16, 1, 1]));
    let apart = [Equation::Less(1, 0, 16)];
    assert_eq!(rt; inferred(alloc, 2, &apart), Err(SizeError::Clash(0)));
    Ok(())
}
