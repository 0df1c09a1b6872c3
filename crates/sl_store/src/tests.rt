//! Packed files, opened and packed again, or why they aren't opened. What is told of each was reckoned
//! by hand.

use crate::{UnpackError, pack, unpack};
use std::test::Fail;

/// What is told of bytes.
#[derive(Clone, Copy, Debug, PartialEq, Eq)]
enum Told {
    Opened,
    NotPacked,
    Cut,
    Damaged(usize),
    NoMemory,
}

/// Bytes, and what is told of them.
static FILES: &[(&[u8], Told)] = &[
    (b"SLE", Told::NotPacked),
    (b"SLEIGHP2\x00\x00", Told::NotPacked),
    (b"SLEIGHP1", Told::Cut),
    (b"SLEIGHP1\x00", Told::Cut),
    // no files and no items
    (b"SLEIGHP1\x00\x00", Told::Opened),
    (b"SLEIGHP1\x00\x00\x00", Told::Damaged(10)),
    // 0 in two bytes
    (b"SLEIGHP1\x80\x00", Told::Damaged(9)),
    // an item where there is no file
    (b"SLEIGHP1\x00\x01", Told::Damaged(9)),
    // a name of a file that isn't UTF-8
    (b"SLEIGHP1\x01\x01\xff", Told::Damaged(10)),
    // one file `s`, and `define endian=big;` on its line 1
    (b"SLEIGHP1\x01\x01s\x01\x00\x01\x00\x00\x00", Told::Opened),
    (b"SLEIGHP1\x01\x01s\x01\x00\x01\x00\x00", Told::Cut),
    // a place in the second of one file
    (b"SLEIGHP1\x01\x01s\x01\x01", Told::Damaged(12)),
    // the seventh alternative of an item
    (b"SLEIGHP1\x01\x01s\x01\x00\x01\x06", Told::Damaged(14)),
    // `define pcodeop if;`, at the keyword's last byte
    (
        b"SLEIGHP1\x01\x01s\x01\x00\x01\x00\x04\x00\x02if",
        Told::Damaged(19),
    ),
    // `define pcodeop iff;` on line 200
    (
        b"SLEIGHP1\x01\x01s\x01\x00\xc8\x01\x00\x04\x00\x03iff",
        Told::Opened,
    ),
    // a block round a constructor `: is a unimpl` and a block without anything
    (
        b"SLEIGHP1\x01\x01s\x01\x00\x01\x05\x00\x00\x00\x02\x00\x02\x04\x00\x00\x00\x01a\x00\x01\x00\x03\x05\x00\x00\x00\x00",
        Told::Opened,
    ),
    // `macro m(a) { a = -(a:2) + 1; }`
    (
        b"SLEIGHP1\x01\x01s\x01\x00\x01\x03\x01m\x01\x01a\x00\x01\x02\x00\x01a\x09\x05\x07\x00\x02\x04\x01\x01a\x02\x00\x01",
        Told::Opened,
    ),
];

#[test]
fn files(rt: HostRuntime) -> Result<(), Fail> {
    for (index, (bytes, want)) in FILES.iter().enumerate() {
        let told = match unpack(rt.alloc(), *bytes) {
            Ok(packed) => {
                let again = pack(rt.alloc(), &packed)?;
                assert_eq!(rt; again.as_slice(), *bytes, "file {index}");
                Told::Opened
            }
            Err(UnpackError::NotPacked) => Told::NotPacked,
            Err(UnpackError::Cut) => Told::Cut,
            Err(UnpackError::Damaged(at)) => Told::Damaged(at),
            Err(UnpackError::NoMemory) => Told::NoMemory,
        };
        assert_eq!(rt; told, *want, "file {index}");
    }
    Ok(())
}
