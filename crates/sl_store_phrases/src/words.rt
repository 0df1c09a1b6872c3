//! Names, other words, texts and numbers.

ghost use Rattle.sl_store_format.specs.Definitions.{natural};
ghost use Rattle.sl_store_format.specs.Expressions as expressions;
ghost use Rattle.sl_store_bytes.specs.Lists.{option};
ghost use Rattle.sl_store_bytes.specs.Reads.{Plain, Reads, now_of};
ghost use Rattle.sl_store_bytes.specs.Words as words;

use sl_store_bytes::{
    BlankBytes, Bytes, CalledBytes, CaretBytes, CharBytes, FirstBytes, InvokedBytes, MemberBytes,
    NameBytes, ShownBytes, Stop, TextBytes, lexeme_here,
};

/// The greatest size that is written, in bytes.
const WIDEST: u64 = 16;

/// A number of 64 bits.
pub fn natural(bytes: &mut Bytes<'_>) -> Result<u64, Stop>
    ensures { Reads Plain (natural bytes.old) result bytes.new }
{
    let number = bytes.number(0, u64::MAX)?;
    Ok(number)
}

/// A size in bytes.
pub fn width(bytes: &mut Bytes<'_>) -> Result<u64, Stop>
    ensures { Reads Plain (expressions.width bytes.old) result bytes.new }
{
    let size = bytes.number(0, WIDEST)?;
    Ok(size)
}

/// A size in bytes, which may lack.
#[tactic(auto, unfolding(sl_store_bytes::specs::Lists::option))]
pub fn width_option(bytes: &mut Bytes<'_>) -> Result<Option<u64>, Stop>
    ensures { Reads Plain (option expressions.width bytes.old) result bytes.new }
{
    if bytes.below(2)? == 0 {
        return Ok(None);
    }
    let size = width(bytes)?;
    Ok(Some(size))
}

/// A name.
pub fn name<'a>(bytes: &mut Bytes<'a>) -> Result<&'a [u8], Stop>
    ensures { Reads now_of (words.name bytes.old) result bytes.new }
{
    lexeme_here::<NameBytes>(bytes, 1, u64::MAX)
}

/// A name that begins a statement.
pub fn first_name<'a>(bytes: &mut Bytes<'a>) -> Result<&'a [u8], Stop>
    ensures { Reads now_of (words.first_name bytes.old) result bytes.new }
{
    lexeme_here::<FirstBytes>(bytes, 1, u64::MAX)
}

/// A name of a function.
pub fn called_name<'a>(bytes: &mut Bytes<'a>) -> Result<&'a [u8], Stop>
    ensures { Reads now_of (words.called_name bytes.old) result bytes.new }
{
    lexeme_here::<CalledBytes>(bytes, 1, u64::MAX)
}

/// A name that begins a statement that is a call.
pub fn invoked_name<'a>(bytes: &mut Bytes<'a>) -> Result<&'a [u8], Stop>
    ensures { Reads now_of (words.invoked_name bytes.old) result bytes.new }
{
    lexeme_here::<InvokedBytes>(bytes, 1, u64::MAX)
}

/// A word of an attached list.
pub fn member_word<'a>(bytes: &mut Bytes<'a>) -> Result<&'a [u8], Stop>
    ensures { Reads now_of (words.member_word bytes.old) result bytes.new }
{
    lexeme_here::<MemberBytes>(bytes, 1, u64::MAX)
}

/// A word of a display.
pub fn shown_word<'a>(bytes: &mut Bytes<'a>) -> Result<&'a [u8], Stop>
    ensures { Reads now_of (words.shown_word bytes.old) result bytes.new }
{
    lexeme_here::<ShownBytes>(bytes, 1, u64::MAX)
}

/// A text with its quotes.
pub fn text<'a>(bytes: &mut Bytes<'a>) -> Result<&'a [u8], Stop>
    ensures { Reads now_of (words.text bytes.old) result bytes.new }
{
    lexeme_here::<TextBytes>(bytes, 2, u64::MAX)
}

/// Blanks of a display.
pub fn blank<'a>(bytes: &mut Bytes<'a>) -> Result<&'a [u8], Stop>
    ensures { Reads now_of (words.blank bytes.old) result bytes.new }
{
    lexeme_here::<BlankBytes>(bytes, 1, u64::MAX)
}

/// `^` of a display.
pub fn caret<'a>(bytes: &mut Bytes<'a>) -> Result<&'a [u8], Stop>
    ensures { Reads now_of (words.caret bytes.old) result bytes.new }
{
    lexeme_here::<CaretBytes>(bytes, 1, 1)
}

/// Another byte of a display.
pub fn byte<'a>(bytes: &mut Bytes<'a>) -> Result<&'a [u8], Stop>
    ensures { Reads now_of (words.char bytes.old) result bytes.new }
{
    lexeme_here::<CharBytes>(bytes, 1, 1)
}
