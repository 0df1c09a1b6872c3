//! The specification.

ghost use Rattle.std.specs.Prelude.{◌≡◌, ◌++◌, IfOk, OnOk};
ghost use Rattle.std.specs.Fmt.{decimal};
ghost use Rattle.sl_tool_generator.specs.Specification as spec;
ghost use Rattle.sl_tool_generator.specs.Specification.{constructor_line};

use itoa::Buffer;
use std::alloc::{AllocError, Global};

/// What is defined before the constructors.
static DEFINITIONS: &[u8] = b"define endian=big;
define space ram type=ram_space size=2 default;
define space register type=register_space size=2;
define register offset=0 size=1 [ r0 r1 r2 r3 ];
define token ins (16) op=(8,15) rd=(4,5) rs=(0,1);
attach variables [ rd rs ] [ r0 r1 r2 r3 ];
";

/// Appends a number in decimal.
fn push_number(text: &mut Vec<u8>, number: u8) -> Result<(), AllocError>
    ensures { OnOk result (text.new.items ≡ text.old.items ++ decimal number) }
{
    let mut buffer = Buffer::new();
    text.extend_from_slice(buffer.format(number).as_bytes())
}

/// Appends the constructor of this number.
fn push_constructor(text: &mut Vec<u8>, number: u8) -> Result<(), AllocError>
    ensures { OnOk result (text.new.items ≡ text.old.items ++ constructor_line number) }
{
    text.extend_from_slice(b":op")?;
    push_number(text, number)?;
    text.extend_from_slice(b" rd,rs is op=")?;
    push_number(text, number)?;
    text.extend_from_slice(b" & rd & rs { rd = rd + rs + ")?;
    push_number(text, number)?;
    text.extend_from_slice(b"; }\n")
}

/// The text of the specification: definitions, and then 64 constructors, a line each. The one of
/// number I adds a register and I to another.
#[tactic(auto, unfolding(crate::specs::Specification::constructor_lines))]
pub fn generated_specification(alloc: Global) -> Result<Vec<u8>, AllocError>
    ensures { IfOk result (λ text. text.items ≡ spec.specification) }
{
    let mut text = Vec::new(alloc);
    text.extend_from_slice(DEFINITIONS)?;
    'constructors: for number in 0..64 {
        push_constructor(&mut text, number)?;
    }
    Ok(text)
}
