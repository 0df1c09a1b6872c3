//! How many operations run.

use super::calls::called;
use sl_outside::{MemFiles, MemSink};
use sl_tool::Status;
use std::test::Fail;

/// A specification with a sum, a quotient after a copy, a loop, a jump, and a store.
static SPEC: &str = "define endian=big;
define space ram type=ram_space size=2 default;
define space register type=register_space size=2;
define register offset=0 size=1 [ A B C D ];
define token t (8) op=(4,7) lo=(0,3);
:inc is op=1 { D = D + 1; }
:div is op=2 { A = 5; B = A / C; A = 1; }
:down is op=3 { A = 3; <again> A = A - 1; if (A) goto <again>; }
:stay is op=4 { goto inst_start; }
:halt is op=6 & lo=15 { goto inst_start; }
";

/// The words, the image `i`, how the call ends, what it writes, and how many operations run: one for each operator, and
/// one for each assignment without an operator.
struct Row {
    words: &'static [&'static str],
    image: &'static [u8],
    status: Status,
    text: &'static str,
    count: u64,
}

const USAGE: &str = "usage: sleigh check SPEC | list SPEC IMAGE | pcode SPEC IMAGE \
    | run SPEC IMAGE | gen NUMBER | gaps SPEC | pack SPEC | asm SPEC TEXT\n";

static ROWS: [Row; 14] = [
    Row {
        words: &[],
        image: b"",
        status: Status::Usage,
        text: USAGE,
        count: 0,
    },
    Row {
        words: &["sleigh", "check", "s"],
        image: b"",
        status: Status::Done,
        text: "ok: 1 tables, 5 constructors\n",
        count: 0,
    },
    Row {
        words: &["sleigh", "list", "s", "i"],
        image: b"\x10\x50",
        status: Status::Done,
        text: "0000: 10 inc\n0001: 50 ??\n",
        count: 0,
    },
    Row {
        words: &["sleigh", "pcode", "s", "i"],
        image: b"\x10",
        status: Status::Done,
        text: "0000: 10 inc\n  register[0003]:1 = INT_ADD register[0003]:1, 0x1:1\n",
        count: 0,
    },
    Row {
        words: &["sleigh", "run", "s", "i", "--steps", "0"],
        image: b"\x10",
        status: Status::Done,
        text: "steps 0\ncounter 0000\nA 00\nB 00\nC 00\nD 00\n",
        count: 0,
    },
    // A copy, and three times a difference and a jump.
    Row {
        words: &["sleigh", "run", "s", "i"],
        image: b"\x30",
        status: Status::Done,
        text: "steps 1\ncounter 0001\nA 00\nB 00\nC 00\nD 00\n",
        count: 7,
    },
    // A jump that leaves the list each time.
    Row {
        words: &["sleigh", "run", "s", "i", "--steps", "4"],
        image: b"\x40",
        status: Status::Done,
        text: "steps 4\ncounter 0000\nA 00\nB 00\nC 00\nD 00\n",
        count: 4,
    },
    // Two sums, and of three operations the one before the fault.
    Row {
        words: &["sleigh", "run", "s", "i", "--steps", "9"],
        image: b"\x10\x10\x20",
        status: Status::Stopped,
        text: "steps 2\ncounter 0002\nA 05\nB 00\nC 00\nD 02\nfault divide by zero\n",
        count: 3,
    },
    // No constructor after the image.
    Row {
        words: &["sleigh", "run", "s", "i", "--steps", "9"],
        image: b"\x10",
        status: Status::Stopped,
        text: "steps 1\ncounter 0001\nA 00\nB 00\nC 00\nD 01\nfault no constructor\n",
        count: 1,
    },
    Row {
        words: &["sleigh", "gaps", "s"],
        image: b"",
        status: Status::Done,
        text: "instruction: gap 00000000000000000000000000000000 0000000000000000\nnot sure\n",
        count: 0,
    },
    Row {
        words: &["sleigh", "asm", "s", "halt", "--base", "0x12"],
        image: b"",
        status: Status::Done,
        text: "0012: 6f halt\n",
        count: 0,
    },
    Row {
        words: &["sleigh", "asm", "s", "halted"],
        image: b"",
        status: Status::Refused,
        text: "no encoding\n",
        count: 0,
    },
    // 0x6f is `halt`, and an `o`.
    Row {
        words: &["sleigh", "asm", "s", "i", "--lines"],
        image: b"0012: 6f halt\n",
        status: Status::Done,
        text: "o",
        count: 0,
    },
    // Two sums an instruction.
    Row {
        words: &["sleigh", "gen", "3"],
        image: b"",
        status: Status::Done,
        text: "gen 3: 64 constructors, 3 listed, 3 steps, r0=1e r1=00 r2=0a r3=00\n",
        count: 6,
    },
];

#[test]
fn operations_are_counted(rt: HostRuntime) -> Result<(), Fail> {
    let alloc = rt.alloc();
    for row in &ROWS {
        let mut files = MemFiles::new(alloc);
        files.add("s", SPEC.as_bytes())?;
        files.add("i", row.image)?;
        let mut out = MemSink::new(alloc);
        let (status, count) = called(alloc, row.words, &mut files, &mut out)?;
        assert_eq!(rt; out.bytes(), row.text.as_bytes(), "{:?}", row.words);
        assert!(rt;
            status == row.status && count == row.count,
            "{:?} {count}",
            row.words
        );
    }
    Ok(())
}
