//! Encodings: bytes that a specification shows as a text, as definitions and their laws; and the first
//! constructor that has an action.
#![tactic(auto)]

ghost use Rattle.sl_asm_encodings.specs.Laws.{EncodesOneText, EncodingIsListed, HasLengthToo};
ghost use Rattle.sl_asm_encodings.specs.Readings.{DecodeIsReadBack};

mod actions;

pub use actions::first_with_action;

/// At an aligned address the listing of an encoding is one line, with the address, the bytes and the
/// text.
pub fn encoding_is_listed()
    ensures { EncodingIsListed }
{}

/// Bytes encode one text at most, at an address from a context.
pub fn encodes_one_text()
    ensures { EncodesOneText }
{}

/// The instruction that an encoding decodes to has just the encoding's bytes, whichever choice of
/// constructors decodes it.
pub fn has_length_too()
    ensures { HasLengthToo }
{}

/// What bytes decode to is read back as nodes that stand at the front of the bytes, one of the first
/// table with its operands, and as their text.
pub fn decode_is_read_back()
    ensures { DecodeIsReadBack }
{}
