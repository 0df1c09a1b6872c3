//! Lists of names, with ample memory.

use sl_spec_rules::are_distinct;
use std::test::Fail;

struct Case {
    names: [&'static [u8]; 3],
    distinct: bool,
}

static CASES: [Case; 3] = [
    Case {
        names: [b"a", b"A", b"ab"],
        distinct: true,
    },
    Case {
        names: [b"a", b"b", b"a"],
        distinct: false,
    },
    Case {
        names: [b"", b"b", b""],
        distinct: false,
    },
];

#[test]
fn names_are_compared(rt: HostRuntime) -> Result<(), Fail> {
    for case in &CASES {
        let distinct = are_distinct(rt.alloc(), &case.names)?;
        assert_eq!(rt; distinct, case.distinct);
    }
    Ok(())
}
