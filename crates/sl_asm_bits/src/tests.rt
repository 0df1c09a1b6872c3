//! How much is known of values of operators. The masks and values were reckoned by hand.

use crate::{operated, under};
use sl_ast::expressions::BinaryOp;
use std::test::Fail;

/// A mask and the bits under it.
type Bits = (u64, u64);

/// An operator, what is known of both sides, and what is known of the value.
static ROWS: &[(BinaryOp, Bits, Bits, Option<Bits>)] = &[
    // a nibble and 16: its bits are open, those of 16 are known
    (BinaryOp::Add, (!15, 0), (!0, 16), Some((!15, 16))),
    // a nibble and 8: at most 23
    (BinaryOp::Add, (!15, 0), (!0, 8), Some((!31, 0))),
    // a multiple of 16 and 5: the lowest bits are known, whatever the carry
    (BinaryOp::Add, (15, 0), (!0, 5), Some((15, 5))),
    // 0 less a bit: 0 or -1
    (BinaryOp::Subtract, (!0, 0), (!1, 0), Some((0, 0))),
    // three times a bit: 0 or 3
    (BinaryOp::Multiply, (!1, 0), (!0, 3), Some((!3, 0))),
    // eight times a nibble
    (BinaryOp::Multiply, (!15, 0), (!0, 8), Some((!0x78, 0))),
    (BinaryOp::ShiftLeft, (!15, 0), (!0, 3), Some((!0x78, 0))),
    // the sign is copied
    (
        BinaryOp::ShiftRight,
        (1 << 63, 1 << 63),
        (!0, 4),
        Some((0xf800_0000_0000_0000, 0xf800_0000_0000_0000)),
    ),
    // an amount of which a bit is open
    (BinaryOp::ShiftRight, (!0, 4), (!1, 0), Some((0, 0))),
    (BinaryOp::And, (0, 0), (!0, 0xf0), Some((!0xf0, 0))),
    (BinaryOp::Or, (0, 0), (!0, 0xf0), Some((0xf0, 0xf0))),
    (BinaryOp::Xor, (1, 1), (!0, 3), Some((1, 0))),
    // -7 by 2 is -3
    (BinaryOp::Divide, (!0, !6), (!0, 2), Some((!0, !2))),
    (BinaryOp::Divide, (!0, 7), (!0, 0), None),
    (BinaryOp::Divide, (!1, 0), (!0, 2), Some((0, 0))),
    // no operator of actions
    (BinaryOp::Remainder, (!0, 1), (!0, 1), None),
];

#[test]
fn rows(rt: HostRuntime) -> Result<(), Fail> {
    for (index, (op, a, b, want)) in ROWS.iter().enumerate() {
        let told = operated(*op, &under(a.0, a.1), &under(b.0, b.1));
        let bits = told.map(|k| (k.mask, k.value));
        assert_eq!(rt; bits, *want, "row {index}");
    }
    Ok(())
}
