//! The expanded text, as it is written.

ghost use Rattle.std.specs.Prelude.{◌≡◌};
ghost use Rattle.sl_preproc_directives.specs.Given.{Gives};
ghost use Rattle.sl_preproc_directives.specs.Replacement.{after_byte, put, put_all};
ghost use Rattle.sl_preproc_directives.specs.Pages.{page_of};

use crate::fault::{Cause, Fault};
use sl_outside::SIZE_LIMIT;

/// The part of a line that has been reached.
#[derive(Clone, Copy, Debug, PartialEq, Eq)]
pub enum LinePart {
    Plain,
    /// Inside a quoted text.
    Quoted,
    /// Behind a `#` that isn't inside a quoted text.
    Comment,
}

/// The expanded text so far, and the part of its last line that has been reached.
#[derive(Drop)]
pub struct Page {
    pub text: Vec<u8>,
    pub part: LinePart,
}

fn after_byte(part: LinePart, byte: u8) -> LinePart
    ensures { result ≡ after_byte part byte }
{
    match part {
        LinePart::Plain => {
            if byte == b'"' {
                LinePart::Quoted
            } else if byte == b'#' {
                LinePart::Comment
            } else {
                LinePart::Plain
            }
        }
        LinePart::Quoted => {
            if byte == b'"' {
                LinePart::Plain
            } else {
                LinePart::Quoted
            }
        }
        LinePart::Comment => LinePart::Comment,
    }
}

/// Writes one byte more.
#[tactic(auto, unfolding(crate::specs::Replacement::put))]
pub fn put(byte: u8, page: &mut Page) -> Result<(), Fault>
    ensures { Gives (λ _. page_of page.new) result (put byte (page_of page.old)) }
{
    if page.text.len() >= SIZE_LIMIT {
        return Err(Fault::Refused(Cause::TooLong));
    }
    page.text.push(byte)?;
    page.part = after_byte(page.part, byte);
    Ok(())
}

/// Writes the bytes one after the other.
#[tactic(auto, unfolding(crate::specs::Replacement::put_all))]
pub fn put_all(bytes: &[u8], page: &mut Page) -> Result<(), Fault>
    ensures { Gives (λ _. page_of page.new) result (put_all bytes.now (page_of page.old)) }
{
    'bytes: for byte in bytes {
        put(*byte, page)?;
    }
    Ok(())
}
