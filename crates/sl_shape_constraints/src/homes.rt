//! The numbers that fields are bits of.

use sl_word::Endian;

/// What a field is bits of.
#[derive(Clone, Copy, Debug)]
pub enum Home {
    Context,
    /// A token: its byte order, and how many bytes it has.
    Token(Endian, u32),
}
