//! What lies in a cube and outside of others.

use super::cubes::{cube, cubes, point};
use sl_cube::{is_covered, meeting, point_outside};
use std::test::Fail;

/// A cube, and others, by masks and values of the first byte; and the least point outside of the others, how many of
/// which meet the cube.
static ROWS: [((u8, u8), &[(u8, u8)], Option<u8>, usize); 6] = [
    ((0, 0), &[], Some(0), 0),
    ((0x80, 0x80), &[(0x80, 0)], Some(0x80), 0),
    ((0x80, 0x80), &[(0x80, 0x80)], None, 1),
    ((0, 0), &[(0x80, 0)], Some(0x80), 1),
    ((0x0f, 1), &[(0xf0, 0), (0x80, 0x80)], Some(0x11), 2),
    ((0, 0), &[(0x80, 0x80), (0x80, 0)], None, 2),
];

#[test]
fn rows(rt: HostRuntime) -> Result<(), Fail> {
    for (index, ((mask, value), others, want, met)) in ROWS.iter().enumerate() {
        let within = cube(*mask, *value);
        let others = cubes(rt.alloc(), others)?;
        let found = point_outside(rt.alloc(), &within, &others)?;
        assert_eq!(rt; found, want.map(point), "row {index}");
        let covered = is_covered(rt.alloc(), &within, &others)?;
        assert_eq!(rt; covered, want.is_none(), "row {index}");
        assert_eq!(rt;
            meeting(rt.alloc(), &within, &others)?.len(),
            *met,
            "row {index}"
        );
    }
    Ok(())
}
