//! Words and the request that they mean.

use sl_tool_words::request_of;
use std::test::Fail;

/// What is printed of a request of each kind.
static ASKED: [(&[&str], &str); 7] = [
    (
        &["sleigh", "check", "--", "-s"],
        "Some(Check(Text(\"-s\"), false))",
    ),
    (
        &["sleigh", "check", "s", "--explain"],
        "Some(Check(Text(\"s\"), true))",
    ),
    (
        &["sleigh", "pcode", "s", "i", "a=1", "--hex"],
        "Some(Pcode(Target { spec: Text(\"s\"), image: \"i\", base: 0, is_hex: true, context: [FieldValue { field: \"a\", value: 1 }] }))",
    ),
    (
        &["sleigh", "run", "--steps", "0", "--base=0xAb", "s", "i"],
        "Some(Run(Target { spec: Text(\"s\"), image: \"i\", base: 171, is_hex: false, context: [] }, 0))",
    ),
    (
        &["sleigh", "asm", "s", "add 0x5", "--actions"],
        "Some(Asm(Assembly { spec: Text(\"s\"), text: \"add 0x5\", base: 0, context: [], takes_actions: true }))",
    ),
    (
        &["sleigh", "asm", "s", "l", "--lines", "m=1"],
        "Some(Patch(Patch { spec: Text(\"s\"), listing: \"l\", context: [FieldValue { field: \"m\", value: 1 }], takes_actions: false }))",
    ),
    (&["sleigh", "list", "s"], "None"),
];

#[test]
fn words_mean_requests(rt: HostRuntime) -> Result<(), Fail> {
    let alloc = rt.alloc();
    for (words, wanted) in &ASKED {
        let mut all = Vec::new(alloc);
        for word in *words {
            all.push(String::from_str(alloc, word)?)?;
        }
        let request = request_of(alloc, all.as_slice())?;
        let text = format!(in alloc; "{request:?}")?;
        assert_eq!(rt; text.as_str(), *wanted);
    }
    Ok(())
}
