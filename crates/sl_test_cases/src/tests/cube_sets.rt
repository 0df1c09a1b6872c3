//! Sets of the first byte.

use super::cubes::{point, set};
use sl_cube_sets::{Apart, Report, first_unsettled, hull_of};
use std::test::Fail;

/// A set as masks and values of its first byte.
type Bytes = &'static [(u8, u8)];

/// Sets, and what is reported of them: the least point, the two sets, and their own least points.
struct Row {
    sets: &'static [Bytes],
    report: Option<(u8, usize, usize, Option<(u8, u8)>)>,
}

static ROWS: [Row; 5] = [
    Row {
        sets: &[&[(0xff, 1)], &[(0xff, 2)]],
        report: None,
    },
    Row {
        sets: &[&[(0xf0, 0x10)], &[(0xf8, 0x10), (0xf8, 0x18)]],
        report: Some((0x10, 0, 1, None)),
    },
    Row {
        sets: &[&[(0xf0, 0x10)], &[(0x0f, 0x01)]],
        report: Some((0x11, 0, 1, Some((0x10, 0x01)))),
    },
    Row {
        sets: &[&[(0xf0, 0x10)], &[(0x0f, 0x01)], &[(0xff, 0x11)]],
        report: None,
    },
    Row {
        sets: &[&[(0xff, 0x10), (0xff, 0x11)], &[(0xf0, 0x10)], &[(0x0c, 0)]],
        report: Some((0x12, 1, 2, Some((0x14, 0)))),
    },
];

#[test]
fn reports(rt: HostRuntime) -> Result<(), Fail> {
    for (index, row) in ROWS.iter().enumerate() {
        let mut sets = Vec::new(rt.alloc());
        for bytes in row.sets {
            sets.push(set(rt.alloc(), bytes)?)?;
        }
        let told = first_unsettled(rt.alloc(), &sets)?;
        let want = row.report.map(|(both, first, second, apart)| Report {
            both: point(both),
            first,
            second,
            apart: match apart {
                None => Apart::Same,
                Some((a, b)) => Apart::Two {
                    only_first: point(a),
                    only_second: point(b),
                },
            },
        });
        assert_eq!(rt; told, want, "row {index}");
    }
    Ok(())
}

#[test]
fn points_of_sets(rt: HostRuntime) -> Result<(), Fail> {
    let few = set(rt.alloc(), &[(0xff, 0x15), (0xff, 0x10)])?;
    let all = set(rt.alloc(), &[(0xf8, 0x18), (0xf8, 0x10)])?;
    assert!(rt; few.is_within(rt.alloc(), &all)? && !all.is_within(rt.alloc(), &few)?);
    assert_eq!(rt; all.least_outside(rt.alloc(), &few)?, Some(point(0x11)));
    let hull = hull_of(&few.cubes).map(|hull| (hull.mask >> 120, hull.value >> 120));
    assert_eq!(rt; hull, Some((0xfa, 0x10)));
    Ok(())
}
