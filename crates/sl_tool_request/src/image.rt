//! Images as hexadecimal text.

ghost use Rattle.std.specs.Prelude.{◌≡◌, IfOk, option_map, filter, not};
ghost use Rattle.sl_tool_request.specs.Images.{image_of, is_blank};

use hex::FromHexError;
use std::alloc::{AllocError, Global};

/// Whether the byte is a space, a tab, or one of the two line ends.
fn is_blank(byte: u8) -> bool
    ensures { result ≡ is_blank byte }
{
    matches!(byte, b' ' | b'\t' | b'\r' | b'\n')
}

/// The bytes that hexadecimal text spells, in either case, with blanks anywhere; none where it
/// spells none.
pub fn decode_hex(alloc: Global, text: &[u8]) -> Result<Option<Vec<u8>>, AllocError>
    ensures { IfOk result (λ r. option_map (λ v. v.items) r ≡ image_of text.now) }
{
    let digits: Vec<u8> = text
        .iter()
        .copied()
        .filter(|byte| !is_blank(*byte))
        .collect(alloc)?;
    match hex::decode(alloc, digits.as_slice()) {
        Ok(bytes) => Ok(Some(bytes)),
        Err(FromHexError::OutOfMemory) => Err(AllocError),
        Err(_) => Ok(None),
    }
}
