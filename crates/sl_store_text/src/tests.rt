//! Texts that are lexed, parsed and packed. The bytes were reckoned by hand.

use crate::pack_text;
use sl_lex::lex;
use sl_parse::parse;
use sl_preproc::{Expanded, Place};
use std::test::Fail;

/// The names of the files, the text, the file and the line of each of its lines, and the packed file.
static TEXTS: &[(&[&str], &[u8], &[(u32, u32)], &[u8])] = &[
    (&["s"], b"", &[], b"SLEIGHP1\x01\x01s\x00"),
    (
        &["s"],
        b"\n# big first\ndefine endian=big;\n",
        &[(0, 1), (0, 2), (0, 3)],
        b"SLEIGHP1\x01\x01s\x01\x00\x03\x00\x00\x00",
    ),
    // the second item is on the line of the first one's end
    (
        &["s"],
        b"define pcodeop\niff; define pcodeop iff;\n",
        &[(0, 199), (0, 200)],
        b"SLEIGHP1\x01\x01s\x02\x00\xc7\x01\x00\x04\x00\x03iff\x00\xc8\x01\x00\x04\x00\x03iff",
    ),
    // the example of the format's page
    (
        &["s", "t"],
        b"define endian=big;\n\
        define space r type=ram_space size=1 default;\n\
        define token w (8) a=(0,7);\n\
        :x is a=1 {}\n",
        &[(0, 1), (1, 1), (1, 2), (0, 3)],
        b"SLEIGHP1\x02\x01s\x01t\x04\
        \x00\x01\x00\x00\x00\
        \x01\x01\x00\x02\x01r\x03\x00\x09ram_space\x01\x01\x03\
        \x01\x02\x00\x05\x01w\x08\x00\x01\x01a\x00\x07\x00\
        \x00\x03\x04\x00\x02\x00\x01x\x02\x01 \x01\x01a\x00\x00\x01\x00\x00\x00",
    ),
    // a block of an included file, with a constructor and a block inside
    (
        &["s", "dir/t"],
        b"define endian=little;\nwith : {\n:x is a unimpl\nwith : {}\n}\nattach values b [1 -1];\n",
        &[(0, 1), (1, 3), (1, 4), (1, 9), (1, 10), (0, 3)],
        b"SLEIGHP1\x02\x01s\x05dir/t\x03\
        \x00\x01\x00\x00\x01\
        \x01\x03\x05\x00\x00\x00\x02\
        \x01\x04\x04\x00\x02\x00\x01x\x02\x01 \x00\x01a\x00\x01\
        \x01\x09\x05\x00\x00\x00\x00\
        \x00\x03\x01\x02\x00\x01b\x02\x02\x00\x01\x02\x01\x01",
    ),
];

#[test]
fn texts(rt: HostRuntime) -> Result<(), Fail> {
    for (index, (names, bytes, places, want)) in TEXTS.iter().enumerate() {
        let mut files = Vec::new(rt.alloc());
        for name in names.iter() {
            files.push(String::from_str(rt.alloc(), *name)?)?;
        }
        let mut lines = Vec::new(rt.alloc());
        for (file, line) in places.iter() {
            lines.push(Place {
                file: *file,
                line: *line,
            })?;
        }
        let text = bytes.to_vec(rt.alloc())?;
        let text = Expanded { text, files, lines };
        let tokens = lex(rt.alloc(), text.text.as_slice())?;
        let spec = parse(rt.alloc(), tokens.as_slice())?;
        let file = pack_text(rt.alloc(), &text, tokens.as_slice(), &spec)?;
        assert_eq!(rt; file.as_slice(), *want, "text {index}");
    }
    Ok(())
}
