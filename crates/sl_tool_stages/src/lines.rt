//! Parts of lines of output, each appended to a buffer. Where memory runs out the buffer may have a
//! part of it.

ghost use Rattle.std.specs.Prelude.{◌≡◌, ◌++◌, OnOk};
ghost use Rattle.std.specs.Fmt.{decimal};
ghost use Rattle.sl_tool_stages.specs.Lines.{point_text, place_text};

use crate::place::Place;
use itoa::Buffer;
use sl_cube::Point;
use sl_list_instructions::push_hex;
use std::alloc::AllocError;

/// Appends the sixteen bytes of a point and its context.
pub fn push_point(out: &mut Vec<u8>, point: &Point) -> Result<(), AllocError>
    ensures { OnOk result (out.new.items ≡ out.old.items ++ point_text point.now) }
{
    push_hex(out, &point.bytes.to_be_bytes())?;
    out.extend_from_slice(b" ")?;
    push_hex(out, &point.context.to_be_bytes())
}

/// Appends words and a number after them.
pub fn push_counted(out: &mut Vec<u8>, words: &[u8], number: u64) -> Result<(), AllocError>
    ensures { OnOk result (out.new.items ≡ out.old.items ++ (words.now ++ decimal number)) }
{
    let mut buffer = Buffer::new();
    out.extend_from_slice(words)?;
    out.extend_from_slice(buffer.format(number).as_bytes())
}

/// Appends the name of a file and the number of a line.
pub fn push_place(out: &mut Vec<u8>, place: &Place) -> Result<(), AllocError>
    ensures { OnOk result (out.new.items
        ≡ out.old.items ++ place_text place.now.file place.now.line) }
{
    let mut buffer = Buffer::new();
    out.extend_from_slice(place.file.as_bytes())?;
    out.extend_from_slice(b":")?;
    out.extend_from_slice(buffer.format(place.line).as_bytes())
}
