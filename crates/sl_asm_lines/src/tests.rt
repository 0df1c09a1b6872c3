//! Texts of listings, read.

use crate::{LineError, LineFault, read_listing};
use sl_word::AddressSize;
use std::test::Fail;

/// A text that can't be read, and which of its lines is at fault.
static FAULTS: &[(&[u8], usize, LineFault)] = &[
    (b"0010: 0102 ab\n0012: 03 c", 2, LineFault::BadLine),
    (b"0010: 0A nop\n", 1, LineFault::BadLine),
    (b"010: 00 nop\n", 1, LineFault::BadLine),
    (b"0010:  nop\n", 1, LineFault::BadLine),
    (b"0010: 00 a\n0012: 00 b\n", 2, LineFault::BadAddress),
    (b"ffff: 0000 a\n", 1, LineFault::BadAddress),
];

#[test]
fn lines_are_read(rt: HostRuntime) -> Result<(), Fail> {
    let size = AddressSize { bytes: 2 };
    let read = read_listing(rt.alloc(), size, b"00fe: 0102 a b\n0100: ff ??\n")?;
    let listing = read.expect(&rt, "a listing");
    assert_eq!(rt; listing.base, 254);
    assert_eq!(rt; listing.image.as_slice(), b"\x01\x02\xff".as_slice());
    assert_eq!(rt; listing.lines.len(), 2);
    assert_eq!(rt; listing.lines[0].text, b"a b".as_slice());
    Ok(())
}

#[test]
fn faults_have_their_lines(rt: HostRuntime) -> Result<(), Fail> {
    let size = AddressSize { bytes: 2 };
    for (text, number, fault) in FAULTS {
        let read = read_listing(rt.alloc(), size, text)?;
        let error = LineError {
            number: *number,
            fault: *fault,
        };
        assert_eq!(rt; read.err(), Some(error));
    }
    Ok(())
}
