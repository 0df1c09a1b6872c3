//! Each call once, with ample memory.

use sl_tool_generator::{Figures, generated_image, generated_specification, push_line};
use std::test::Fail;

#[test]
fn three_instructions(rt: HostRuntime) -> Result<(), Fail> {
    let text = generated_specification(rt.alloc())?;
    let last = b":op63 rd,rs is op=63 & rd & rs { rd = rd + rs + 63; }\n";
    assert!(rt;
        text.as_slice()
            .starts_with(b"define endian=big;\ndefine space ram")
    );
    assert!(rt; text.as_slice().ends_with(last));
    let image = generated_image(rt.alloc(), 3)?;
    assert_eq!(rt; image.as_slice(), [3, 0, 10, 37, 17, 74].as_slice());
    let mut line = Vec::new(rt.alloc());
    let figures = Figures {
        instructions: 3,
        listed: 3,
        steps: 3,
        r0: 0x1e,
        r1: 0,
        r2: 10,
        r3: 0,
    };
    push_line(&mut line, figures)?;
    let wanted = b"gen 3: 64 constructors, 3 listed, 3 steps, r0=1e r1=00 r2=0a r3=00\n";
    assert_eq!(rt; line.as_slice(), wanted.as_slice());
    Ok(())
}
