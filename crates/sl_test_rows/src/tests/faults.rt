//! Reads and writes that fail one by one.

use super::calls::called;
use sl_outside::{MemFiles, MemSink};
use sl_tool::Status;
use std::test::Fail;

static SPEC: &[u8] = b"@include \"b\"
:add is a=1 {}
";

static DEFINITIONS: &[u8] = b"define endian=big;
define space ram type=ram_space size=2 default;
define token t (8) a=(4,7);
";

/// The fetch and the put that fail, of which there is no 0th; how many bytes the sink takes; how the call ends; and how
/// many bytes of the listing are written.
static ROWS: [(u64, u64, u64, Status, usize); 12] = [
    (1, 0, 99, Status::ReadFault, 0),
    (2, 0, 99, Status::ReadFault, 0),
    (3, 0, 99, Status::ReadFault, 0),
    (4, 0, 99, Status::Done, 13),
    (0, 0, 99, Status::Done, 13),
    (0, 1, 99, Status::WriteFault, 0),
    (0, 2, 99, Status::Done, 13),
    (0, 0, 0, Status::WriteFault, 0),
    (0, 0, 1, Status::WriteFault, 1),
    (0, 0, 12, Status::WriteFault, 12),
    (0, 0, 13, Status::Done, 13),
    (3, 1, 0, Status::ReadFault, 0),
];

#[test]
fn a_prefix_is_written_at_a_fault(rt: HostRuntime) -> Result<(), Fail> {
    let alloc = rt.alloc();
    for (fetch, put, room, status, written) in &ROWS {
        let mut files = MemFiles::new(alloc);
        files.add("s", SPEC)?;
        files.add("b", DEFINITIONS)?;
        files.add("i", b"\x16")?;
        files.fail_on(*fetch)?;
        let mut out = MemSink::new(alloc);
        out.fail_on(*put)?;
        out.room(*room);
        let (ended, _count) = called(alloc, &["sleigh", "list", "s", "i"], &mut files, &mut out)?;
        assert!(rt; ended == *status, "{fetch} {put} {room}");
        let listing = b"0000: 16 add\n".iter().take(*written);
        assert!(rt; out.bytes().iter().eq(listing), "{fetch} {put} {room}");
    }
    Ok(())
}
