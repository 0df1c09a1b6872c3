//! Blocks of single fields of four and of 64 bits.

use sl_shape_blocks::{Codes, blocks_of};
use std::test::Fail;

/// The codes by their ends and whether they are those inside, the bits, and the blocks.
static ROWS: &[(u64, u64, bool, u32, &[(u64, u32)])] = &[
    (0, 15, true, 4, &[(0, 4)]),
    (3, 3, true, 4, &[(3, 0)]),
    (
        1,
        14,
        true,
        4,
        &[(1, 0), (1, 1), (1, 2), (2, 2), (6, 1), (14, 0)],
    ),
    (0, 0, false, 4, &[(1, 0), (1, 1), (1, 2), (1, 3)]),
    (9, 3, true, 4, &[]),
    (1 << 63, u64::MAX, true, 64, &[(1, 63)]),
];

#[test]
fn rows(rt: HostRuntime) -> Result<(), Fail> {
    for (index, (low, high, inside, size, want)) in ROWS.iter().enumerate() {
        let codes = Codes {
            low: *low,
            high: *high,
            inside: *inside,
        };
        let blocks = blocks_of(rt.alloc(), &codes, (*size).min(64))?;
        assert_eq!(rt; blocks.len(), want.len(), "row {index}");
        for (block, (first, bits)) in blocks.iter().zip(*want) {
            assert_eq!(rt; (block.index, block.size), (*first, *bits), "row {index}");
        }
    }
    Ok(())
}
