//! The line that is printed.

ghost use Rattle.std.specs.Prelude.{◌≡◌, ◌++◌, OnOk};
ghost use Rattle.sl_tool_generator.specs.Line.{byte_text, count_text, figures_line, registers_text};

use itoa::Buffer;
use std::alloc::AllocError;

/// What `gen` found of this many instructions: how many lines of the listing show one, how many
/// steps ran without a fault, and what the registers hold after them.
#[derive(Clone, Copy, Debug)]
pub struct Figures {
    pub instructions: u64,
    pub listed: u64,
    pub steps: u64,
    pub r0: u8,
    pub r1: u8,
    pub r2: u8,
    pub r3: u8,
}

/// Appends a text, and a number in decimal behind it.
fn push_count(line: &mut Vec<u8>, before: &[u8], number: u64) -> Result<(), AllocError>
    ensures { OnOk result (line.new.items ≡ line.old.items ++ count_text before.now number) }
{
    let mut buffer = Buffer::new();
    line.extend_from_slice(before)?;
    line.extend_from_slice(buffer.format(number).as_bytes())
}

/// Appends a text, and a byte in hexadecimal behind it.
fn push_byte(line: &mut Vec<u8>, before: &[u8], byte: u8) -> Result<(), AllocError>
    ensures { OnOk result (line.new.items ≡ line.old.items ++ byte_text before.now byte) }
{
    let mut digits = [0; 2];
    hex::encode_to_slice(&[byte], &mut digits).unwrap();
    line.extend_from_slice(before)?;
    line.extend_from_slice(&digits)
}

/// Appends what the registers hold.
fn push_registers(line: &mut Vec<u8>, figures: Figures) -> Result<(), AllocError>
    ensures { OnOk result (line.new.items ≡ line.old.items ++ registers_text figures) }
{
    push_byte(line, b"r0=", figures.r0)?;
    push_byte(line, b" r1=", figures.r1)?;
    push_byte(line, b" r2=", figures.r2)?;
    push_byte(line, b" r3=", figures.r3)?;
    Ok(())
}

/// Appends the line that `gen` prints.
pub fn push_line(line: &mut Vec<u8>, figures: Figures) -> Result<(), AllocError>
    ensures { OnOk result (line.new.items ≡ line.old.items ++ figures_line figures) }
{
    push_count(line, b"gen ", figures.instructions)?;
    push_count(line, b": 64 constructors, ", figures.listed)?;
    push_count(line, b" listed, ", figures.steps)?;
    line.extend_from_slice(b" steps, ")?;
    push_registers(line, figures)?;
    line.extend_from_slice(b"\n")?;
    Ok(())
}
