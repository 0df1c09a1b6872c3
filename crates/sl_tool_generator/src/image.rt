//! The image.

ghost use Rattle.std.specs.Prelude.{◌≡◌, ◌++◌, ◌∷◌, [], IfOk};
ghost use Rattle.sl_tool_generator.specs.Image as spec;
ghost use Rattle.sl_tool_generator.specs.Image.{operation, registers};

use std::alloc::{AllocError, Global};

/// The first byte of the instruction of this number: which constructor it is.
fn operation(number: u32) -> u8
    ensures { result ≡ operation number }
{
    ((7 * u64::from(number) + 3) % 64) as u8
}

/// The second byte of the instruction of this number: its registers.
fn registers(number: u32) -> u8
    ensures { result ≡ registers number }
{
    (37 * u64::from(number) % 256) as u8
}

/// The bytes of the first `count` instructions, two each.
#[tactic(auto, unfolding(crate::specs::Image::image))]
pub fn generated_image(alloc: Global, count: u32) -> Result<Vec<u8>, AllocError>
    ensures { IfOk result (λ image. image.items ≡ spec.image count) }
{
    let mut image = Vec::new(alloc);
    'instructions: for number in 0..count {
        image.push(operation(number))?;
        image.push(registers(number))?;
    }
    Ok(image)
}
