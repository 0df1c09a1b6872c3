//! What texts expand to.

use sl_outside::MemFiles;
use sl_preproc::expand;
use std::test::Fail;

/// The files of a row by their names, the main file `m` first, and what the main file expands to.
struct Text {
    files: &'static [(&'static str, &'static str)],
    text: &'static str,
}

static TEXTS: [Text; 19] = [
    Text {
        files: &[("m", "")],
        text: "",
    },
    Text {
        files: &[("m", "a\nb")],
        text: "a\nb\n",
    },
    Text {
        files: &[("m", "a\r\n\n")],
        text: "a\r\n\n",
    },
    Text {
        files: &[("m", "@define A x\n$(A)$(A) $( $(A\n")],
        text: "xx $( $(A\n",
    },
    Text {
        files: &[("m", "@define A \"$(B)\"\n@define B y # later\n<$(A)>\n")],
        text: "<y>\n",
    },
    Text {
        files: &[("m", "# $(A)\n\"#\" x\n")],
        text: "# $(A)\n\"#\" x\n",
    },
    Text {
        files: &[("m", "@define A\n@ifdef A\n1\n@else\n2\n@endif\n")],
        text: "1\n",
    },
    Text {
        files: &[("m", "@ifndef A\n1\n@elif )(\n2\n@endif # end\n")],
        text: "1\n",
    },
    Text {
        files: &[(
            "m",
            "@if defined(A) && A == \"1\"\n1\n@elif !(\"a\" == \"b\") ^^ \"a\" != \"a\"\n2\n@else\n3\n@endif\n",
        )],
        text: "2\n",
    },
    Text {
        files: &[("m", "@if \"a\" == \"a\" || B == C\n1\n@endif\n")],
        text: "1\n",
    },
    Text {
        files: &[("m", "@if \"a\" != \"a\" && B == C\n1\n@endif\n2\n")],
        text: "2\n",
    },
    Text {
        files: &[(
            "m",
            "@ifdef A\n@if ((\n@nonsense\n$(B)\n@endif x\n@endif\n3\n",
        )],
        text: "3\n",
    },
    Text {
        files: &[(
            "m",
            "@ define A-b\n$(A)\n@undef A\n@undef A\n@ifdef A\n1\n@endif\n",
        )],
        text: "-b\n",
    },
    Text {
        files: &[
            ("m", "1\n@include \"d/a\"\n2\n"),
            ("d/a", "@include \"b\"\n"),
            ("d/b", "b\n"),
        ],
        text: "1\nb\n2\n",
    },
    Text {
        files: &[("m", "@include \"/r\"\n"), ("/r", "r")],
        text: "r\n",
    },
    Text {
        files: &[("m", "@ifndef A\n@define A\n@include \"m\"\n@endif\nx\n")],
        text: "x\nx\n",
    },
    Text {
        files: &[
            ("m", "@include\t\"a\" # c\n$(A)\n"),
            ("a", "@define A \"#\"\n"),
        ],
        text: "#\n",
    },
    Text {
        files: &[(
            "m",
            "@define A0 add\n@define A1 \"$(A0)\"\n@define A2 \"$(A1)\"\n@define A3 \"$(A2)\"\n@define A4 \"$(A3)\"\n@define A5 \"$(A4)\"\n@define A6 \"$(A5)\"\n@define A7 \"$(A6)\"\n@define A8 \"$(A7)\"\n@define A9 \"$(A8)\"\n@define A10 \"$(A9)\"\n@define A11 \"$(A10)\"\n@define A12 \"$(A11)\"\n@define A13 \"$(A12)\"\n@define A14 \"$(A13)\"\n@define A15 \"$(A14)\"\n@define A16 \"$(A15)\"\n:$(A15)\n",
        )],
        text: ":add\n",
    },
    Text {
        files: &[
            ("m", "@include \"f2\""),
            ("f2", "@include \"f3\""),
            ("f3", "@include \"f4\""),
            ("f4", "@include \"f5\""),
            ("f5", "@include \"f6\""),
            ("f6", "@include \"f7\""),
            ("f7", "@include \"f8\""),
            ("f8", "@include \"f9\""),
            ("f9", "@include \"f10\""),
            ("f10", "@include \"f11\""),
            ("f11", "@include \"f12\""),
            ("f12", "@include \"f13\""),
            ("f13", "@include \"f14\""),
            ("f14", "@include \"f15\""),
            ("f15", "@include \"f16\""),
            ("f16", "x"),
        ],
        text: "x\n",
    },
];

#[test]
fn texts(rt: HostRuntime) -> Result<(), Fail> {
    for row in &TEXTS {
        let mut files = MemFiles::new(rt.alloc());
        for (name, text) in row.files {
            files.add(name, text.as_bytes())?;
        }
        let expanded = expand(rt.alloc(), &mut files, "m")?;
        assert_eq!(rt; expanded.text.as_slice(), row.text.as_bytes());
    }
    Ok(())
}
