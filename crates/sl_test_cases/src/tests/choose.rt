//! A table of 64 constructors, each of which holds of one value of the first byte.

use super::cubes::{point, set};
use sl_choose::Chooser;
use std::test::Fail;

#[test]
fn each_byte_leads_to_one_at_most(rt: HostRuntime) -> Result<(), Fail> {
    let mut ctors = Vec::new(rt.alloc());
    let mut sets = Vec::new(rt.alloc());
    for byte in 0..64u8 {
        ctors.push(u32::from(byte) + 100)?;
        sets.push(set(rt.alloc(), &[(0xff, byte)])?)?;
    }
    assert!(rt; ctors.len() == sets.len());
    let chooser = Chooser::build(rt.alloc(), &ctors, &sets)?;
    for byte in 0..=255u8 {
        let wanted = if byte < 64 {
            Some(u32::from(byte) + 100)
        } else {
            None
        };
        assert_eq!(rt; chooser.pick(&point(byte)), wanted, "byte {byte}");
        assert!(rt; chooser.leaf(&point(byte)).len() <= 1, "byte {byte}");
    }
    Ok(())
}
