//! The text of operations.

ghost use Rattle.std.specs.Prelude.{◌≡◌, ◌≤◌, ◌++◌, OnOk, string_bytes, slice_index};
ghost use Rattle.std.specs.Fmt.{decimal};
ghost use Rattle.sl_word.specs.Sizes.{byte_counts};
ghost use Rattle.sl_pcode.specs.Text.{constant_text, distance_text, first_text, inputs_text};
ghost use Rattle.sl_pcode.specs.Text.{located_text, name_at, offset_text, op_text, output_text};
ghost use Rattle.sl_pcode.specs.Text.{rest_text, target_text, varnode_text};

use crate::{Kind, Op, Place2, Varnode};
use itoa::Buffer;
use sl_word::{AddressSize, SpaceId};
use std::alloc::AllocError;

/// What the text of operations calls the spaces and the user operations, each by its number.
#[derive(Debug, Drop)]
pub struct Names {
    /// The names of the spaces.
    pub spaces: Vec<String>,
    /// The size of addresses for each space.
    pub sizes: Vec<AddressSize>,
    /// The names of the user operations.
    pub userops: Vec<String>,
}

/// Adds the text of an operation at the end of `text`: `OUT = CODE IN, IN`, or without an output
/// `CODE IN, IN`.
///
/// A varnode is `SPACE[OFFSET]:SIZE`, the offset in hexadecimal with two digits for each byte of an
/// address; a temporary one `unique[OFFSET]:SIZE` with eight digits; and a constant `0xVALUE:SIZE`
/// without leading zeros. The size is in decimal. The number of a space in LOAD and STORE, and that of
/// a user operation, is its name, and a distance in the list `+K` or `-K`, in decimal.
///
/// What `names` lacks is printed as nothing. Where memory runs out it is open what `text` has then.
pub fn print_op(op: &Op, names: &Names, text: &mut String) -> Result<(), AllocError>
    ensures { OnOk result
        (string_bytes text.new ≡ string_bytes text.old ++ op_text names.now op.now) }
{
    push_output(op.out, names, text)?;
    text.push_str(op.code.name())?;
    push_inputs(op.code.kind(), op.inputs.as_slice(), names, text)
}

fn push_output(out: Option<Varnode>, names: &Names, text: &mut String) -> Result<(), AllocError>
    ensures { OnOk result
        (string_bytes text.new ≡ string_bytes text.old ++ output_text names.now out) }
{
    match out {
        Some(out) => {
            push_varnode(out, names, text)?;
            text.push_str(" = ")
        }
        None => Ok(()),
    }
}

fn push_inputs(
    kind: Kind,
    inputs: &[Varnode],
    names: &Names,
    text: &mut String,
) -> Result<(), AllocError>
    ensures { OnOk result
        (string_bytes text.new ≡ string_bytes text.old ++ inputs_text names.now kind inputs.now) }
{
    match inputs.split_first() {
        Some((first, rest)) => {
            text.push_str(" ")?;
            push_first(kind, *first, names, text)?;
            push_rest(rest, names, text)
        }
        None => Ok(()),
    }
}

fn push_rest(inputs: &[Varnode], names: &Names, text: &mut String) -> Result<(), AllocError>
    ensures { OnOk result
        (string_bytes text.new ≡ string_bytes text.old ++ rest_text names.now inputs.now) }
{
    'inputs: for v in inputs {
        text.push_str(", ")?;
        push_varnode(*v, names, text)?;
    }
    Ok(())
}

fn push_first(kind: Kind, v: Varnode, names: &Names, text: &mut String) -> Result<(), AllocError>
    ensures { OnOk result
        (string_bytes text.new ≡ string_bytes text.old ++ first_text names.now kind v) }
{
    match kind {
        Kind::Load | Kind::Store => text.push_str(name_at(&names.spaces, v.offset)),
        Kind::UserOp => text.push_str(name_at(&names.userops, v.offset)),
        Kind::Branch | Kind::CBranch => push_target(v, names, text),
        Kind::Unary(_) | Kind::Binary(_) => push_varnode(v, names, text),
        Kind::Call | Kind::Indirect => push_varnode(v, names, text),
    }
}

fn push_target(v: Varnode, names: &Names, text: &mut String) -> Result<(), AllocError>
    ensures { OnOk result
        (string_bytes text.new ≡ string_bytes text.old ++ target_text names.now v) }
{
    match v.place {
        Place2::Const => push_distance(v.offset, text),
        Place2::Unique | Place2::In(_) => push_varnode(v, names, text),
    }
}

fn push_distance(distance: u64, text: &mut String) -> Result<(), AllocError>
    ensures { OnOk result
        (string_bytes text.new ≡ string_bytes text.old ++ distance_text distance) }
{
    if distance < 1 << 31 {
        text.push_str("+")?;
        push_decimal(distance, text)
    } else {
        text.push_str("-")?;
        push_decimal((1u64 << 32).saturating_sub(distance), text)
    }
}

fn push_varnode(v: Varnode, names: &Names, text: &mut String) -> Result<(), AllocError>
    ensures { OnOk result
        (string_bytes text.new ≡ string_bytes text.old ++ varnode_text names.now v) }
{
    match v.place {
        Place2::Const => push_constant(v, text),
        Place2::Unique => push_located("unique", 4, v, text),
        Place2::In(space) => {
            let name = name_at(&names.spaces, u64::from(space.0));
            push_located(name, address_bytes(&names.sizes, space), v, text)
        }
    }
}

fn push_constant(v: Varnode, text: &mut String) -> Result<(), AllocError>
    ensures { OnOk result
        (string_bytes text.new ≡ string_bytes text.old ++ constant_text v.offset v.size.bytes) }
{
    let value = v.offset;
    let size = v.size.get();
    write!(text, "0x{value:x}:{size}")
}

fn push_located(
    name: &str,
    address_bytes: u8,
    v: Varnode,
    text: &mut String,
) -> Result<(), AllocError>
    requires { address_bytes ≤ 8 }
    ensures { OnOk result (string_bytes text.new
        ≡ string_bytes text.old ++ located_text name.now address_bytes v.offset v.size.bytes) }
{
    text.push_str(name)?;
    text.push_str("[")?;
    push_offset(address_bytes, v.offset, text)?;
    text.push_str("]:")?;
    push_decimal(u64::from(v.size.get()), text)
}

fn push_offset(address_bytes: u8, offset: u64, text: &mut String) -> Result<(), AllocError>
    requires { address_bytes ≤ 8 }
    ensures { OnOk result
        (string_bytes text.new ≡ string_bytes text.old ++ offset_text address_bytes offset) }
{
    let bytes = offset.to_be_bytes();
    let shown = &bytes[8 - usize::from(address_bytes)..];
    let mut buffer = [0; 16];
    let digits = &mut buffer[..2 * usize::from(address_bytes)];
    hex::encode_to_slice(shown, digits).unwrap();
    text.push_str(std::str::from_utf8(digits).unwrap())
}

fn push_decimal(number: u64, text: &mut String) -> Result<(), AllocError>
    ensures { OnOk result (string_bytes text.new ≡ string_bytes text.old ++ decimal number) }
{
    let mut buffer = Buffer::new();
    text.push_str(buffer.format(number))
}

fn name_at(names: &[String], number: u64) -> &str
    ensures { result.now ≡ name_at names.now number }
{
    match names.get(number as usize) {
        Some(name) => name.as_str(),
        None => "",
    }
}

// How many bytes an address of a space has, or 0 where there is no such space.
fn address_bytes(sizes: &[AddressSize], space: SpaceId) -> u8
    ensures value { result ≡ slice_index (byte_counts sizes.now) space.0 }
    ensures at_most_8 { result ≤ 8 }
{
    match sizes.get(space.0 as usize) {
        Some(size) => size.get(),
        None => 0,
    }
}
