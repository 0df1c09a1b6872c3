//! The lines that tell of a run, each appended to a buffer. Where memory runs out the buffer may
//! have a part of the line.

ghost use Rattle.std.specs.Prelude.{◌≡◌, ◌++◌, ◌<◌, OnOk, length};
ghost use Rattle.sl_decode_meaning.specs.Actions.{address_bytes};
ghost use Rattle.sl_step_run.specs.RunLines.{change_line, counter_line, held, is_context};
ghost use Rattle.sl_step_run.specs.RunLines.{number_text, register_line, register_lines};
ghost use Rattle.sl_step_run.specs.RunLines.{steps_line};
ghost use Rattle.sl_step_run.specs.Told.{HasSpacesOf, RegistersAreInSpaces, numbered_line};
ghost use Rattle.sl_step_run.specs.Told.{told_line, told_lines};
ghost use Rattle.sl_word.specs.Bytes.{byte_at};

use crate::opening::size_of;
use itoa::Buffer;
use sl_decode::address_size;
use sl_list_instructions::{push_address, push_hex};
use sl_spec::{Register, Space, SpaceKind, Tables};
use sl_word::{Change, Size, State};
use std::alloc::AllocError;

/// Appends how many steps ended without a fault.
pub(crate) fn push_steps(out: &mut Vec<u8>, ran: u64) -> Result<(), AllocError>
    ensures { OnOk result (out.new.items ≡ out.old.items ++ steps_line ran) }
{
    let mut buffer = Buffer::new();
    out.extend_from_slice(b"steps ")?;
    out.extend_from_slice(buffer.format(ran).as_bytes())?;
    out.extend_from_slice(b"\n")
}

/// Appends the address of the next instruction.
pub(crate) fn push_counter(
    out: &mut Vec<u8>,
    tables: &Tables,
    counter: u64,
) -> Result<(), AllocError>
    ensures { OnOk result (out.new.items
        ≡ out.old.items ++ counter_line (address_bytes tables.now) counter) }
{
    let size = address_size(tables);
    out.extend_from_slice(b"counter ")?;
    push_address(out, size, counter)?;
    out.extend_from_slice(b"\n")
}

// ---- registers

/// Appends a number of `size` bytes in hexadecimal, the most significant byte first.
fn push_number(out: &mut Vec<u8>, size: Size, number: u128) -> Result<(), AllocError>
    ensures { OnOk result (out.new.items ≡ out.old.items ++ number_text size.bytes number) }
{
    let bytes = number.to_be_bytes();
    push_hex(out, &bytes[16 - usize::from(size.get())..])
}

/// The number that a register holds.
pub fn held(tables: &Tables, state: &State, register: &Register) -> u128
    requires state { HasSpacesOf tables.now state.now }
    requires space { register.now.space < length tables.now.spaces }
    ensures { result ≡ held tables.now (byte_at state.now) register.now }
{
    let word = state.read(register.space, register.offset, register.size);
    word.bits
}

/// Appends a register and what it holds.
fn push_register(
    out: &mut Vec<u8>,
    tables: &Tables,
    state: &State,
    register: &Register,
) -> Result<(), AllocError>
    requires state { HasSpacesOf tables.now state.now }
    requires space { register.now.space < length tables.now.spaces }
    ensures { OnOk result (out.new.items
        ≡ out.old.items ++ register_line tables.now (byte_at state.now) register.now) }
{
    let number = held(tables, state, register);
    out.extend_from_slice(register.name)?;
    out.extend_from_slice(b" ")?;
    push_number(out, register.size, number)?;
    out.extend_from_slice(b"\n")
}

/// Whether the context's fields are in the register of this number.
fn is_context(tables: &Tables, number: usize) -> bool
    ensures { result ≡ is_context tables.now.context number }
{
    match tables.context {
        Some(id) => id.0 as usize == number,
        None => false,
    }
}

/// Appends the register of this number and what it holds, unless it is the context's.
fn push_numbered(
    out: &mut Vec<u8>,
    tables: &Tables,
    state: &State,
    number: usize,
    register: &Register,
) -> Result<(), AllocError>
    requires state { HasSpacesOf tables.now state.now }
    requires space { register.now.space < length tables.now.spaces }
    ensures { OnOk result (out.new.items
        ≡ out.old.items ++ numbered_line tables.now (byte_at state.now) number register.now) }
{
    if is_context(tables, number) {
        Ok(())
    } else {
        push_register(out, tables, state, register)
    }
}

/// Appends the registers and what they hold, but for the context's.
pub(crate) fn push_registers(
    out: &mut Vec<u8>,
    tables: &Tables,
    state: &State,
) -> Result<(), AllocError>
    requires state { HasSpacesOf tables.now state.now }
    requires spaces { RegistersAreInSpaces tables.now }
    ensures { OnOk result (out.new.items ≡ out.old.items
        ++ register_lines tables.now (byte_at state.now) 0 tables.now.registers) }
{
    'registers: for number in 0..tables.registers.len() {
        push_numbered(out, tables, state, number, tables.registers.member(number))?;
    }
    Ok(())
}

// ---- changes

/// Appends the byte at an offset of a space.
fn push_byte(out: &mut Vec<u8>, space: &Space, offset: u64, byte: u8) -> Result<(), AllocError>
    ensures { OnOk result (out.new.items ≡ out.old.items ++ change_line space.now offset byte) }
{
    let size = size_of(space);
    out.extend_from_slice(space.name)?;
    out.extend_from_slice(b"[")?;
    push_address(out, size, offset)?;
    out.extend_from_slice(b"] ")?;
    push_hex(out, &[byte])?;
    out.extend_from_slice(b"\n")
}

/// Appends a byte that has changed, unless its space has registers.
fn push_change(out: &mut Vec<u8>, tables: &Tables, change: Change) -> Result<(), AllocError>
    ensures { OnOk result (out.new.items
        ≡ out.old.items ++ told_line tables.now.spaces change) }
{
    match tables.spaces.at(change.space.0 as usize) {
        Some(space) => match space.kind {
            SpaceKind::Register => Ok(()),
            SpaceKind::Ram | SpaceKind::Rom => push_byte(out, space, change.offset, change.byte),
        },
        None => Ok(()),
    }
}

/// Appends the bytes that have changed, but for those of spaces with registers.
pub(crate) fn push_changes(
    out: &mut Vec<u8>,
    tables: &Tables,
    changes: &[Change],
) -> Result<(), AllocError>
    ensures { OnOk result (out.new.items
        ≡ out.old.items ++ told_lines tables.now.spaces changes.now) }
{
    'changes: for change in changes {
        push_change(out, tables, *change)?;
    }
    Ok(())
}
