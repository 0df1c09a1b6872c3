//! The bytes of a file as an image: decoded, and fitted into the memory.

ghost use Rattle.std.specs.Prelude.{◌≡◌, ◌↔◌, ◌≤◌, ◌^◌, IfOk, IsTrue, length};
ghost use Rattle.sl_tool_request.specs.Views.{target as target_view};
ghost use Rattle.sl_tool_stages.specs.Outcomes.{Gives};
ghost use Rattle.sl_step_run.specs.Running.{HasRoom};
ghost use Rattle.sl_tool_stages.specs.Stages.{Decodes, Fits, Prepares};

use crate::halt::Halt;
use crate::problem::Problem;
use crate::refusal::Refusal;
use sl_tool_request::{Target, decode_hex};
use std::alloc::Global;

/// The bytes themselves, or with `--hex` those that they spell as hexadecimal text.
fn decoded(alloc: Global, target: &Target<'_>, bytes: Vec<u8>) -> Result<Vec<u8>, Halt>
    ensures { Gives (Decodes (target_view target.now) bytes.items) (λ image. image.items) result }
{
    if !target.is_hex {
        return Ok(bytes);
    }
    match decode_hex(alloc, bytes.as_slice())? {
        Some(image) => Ok(image),
        None => {
            let refusal = Refusal::of_file(alloc, target.image, Problem::BadHex)?;
            Err(Halt::Refused(refusal))
        }
    }
}

/// Whether `base` is an address of `address_bytes` bytes, and so are the addresses of `length`
/// bytes from it on.
pub fn has_room(address_bytes: u64, base: u64, length: usize) -> bool
    requires { address_bytes ≤ 8 }
    ensures { IsTrue result ↔ HasRoom (256 ^ address_bytes) base length }
{
    let addresses = 1u128 << (8 * address_bytes);
    let end = u128::from(base) + length as u128;
    u128::from(base) < addresses && end <= addresses
}

/// The image, where it fits a memory whose addresses have `address_bytes` bytes.
fn fitted(
    alloc: Global,
    target: &Target<'_>,
    address_bytes: u64,
    image: Vec<u8>,
) -> Result<Vec<u8>, Halt>
    requires { address_bytes ≤ 8 }
    ensures { Gives (Fits (256 ^ address_bytes) (target_view target.now) image.items)
        (λ same. same.items) result }
{
    if !has_room(address_bytes, target.base, image.len()) {
        let refusal = Refusal::of_file(alloc, target.image, Problem::TooLong)?;
        return Err(Halt::Refused(refusal));
    }
    Ok(image)
}

/// The image that the bytes of the target's file are.
pub fn prepared(
    alloc: Global,
    target: &Target<'_>,
    address_bytes: u64,
    bytes: Vec<u8>,
) -> Result<Vec<u8>, Halt>
    requires { address_bytes ≤ 8 }
    ensures gives { Gives (Prepares (256 ^ address_bytes) (target_view target.now) bytes.items)
        (λ image. image.items) result }
    ensures room { IfOk result (λ image.
        HasRoom (256 ^ address_bytes) target.now.base (length image.items)) }
{
    let image = decoded(alloc, target, bytes)?;
    let image = fitted(alloc, target, address_bytes, image)?;
    Ok(image)
}
