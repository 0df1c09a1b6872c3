//! Lists of bytes each of which is judged by those before it.

ghost use Rattle.std.specs.Prelude.{◌≡◌, ◌++◌, ◌∷◌, [], IfOk};
ghost use Rattle.sl_store_bytes.specs.Lexemes as lexemes;
ghost use Rattle.sl_store_bytes.specs.Lexemes.{Follow, write_bytes};
ghost use Rattle.sl_store_bytes.specs.Reads.{Reads, now_of};

use crate::bytes::{Bytes, Stop};
use crate::write::put_number;
use std::alloc::AllocError;

/// A kind of lexeme.
pub trait Lexeme {
    ghost follow: { Follow };

    /// Whether `byte` may follow those before it in `word`, which ends with it, with `left` more after it.
    fn may_follow(left: u64, before: &[u8], byte: u8, word: &[u8]) -> bool
        requires { word.now ≡ before.now ++ byte ∷ [] }
        ensures { result ≡ follow left before.now byte };
}

/// A lexeme of `least` to `most` bytes, which are borrowed.
#[tactic(auto, unfolding(crate::specs::Lexemes::lexeme))]
pub fn lexeme_here<'a, L: Lexeme>(
    bytes: &mut Bytes<'a>,
    least: u64,
    most: u64,
) -> Result<&'a [u8], Stop>
    ensures { Reads now_of (lexemes.lexeme L.follow least most bytes.old) result bytes.new }
{
    let count = bytes.number(least, most)?;
    let text = bytes.left;
    'letters: for (at, byte) in text.iter().enumerate() {
        if at as u64 == count {
            let (found, rest) = text.split_at(at);
            bytes.left = rest;
            return Ok(found);
        }
        if !L::may_follow(count - at as u64 - 1, &text[..at], *byte, &text[..at + 1]) {
            return Err(Stop::Damaged(text.len() - at));
        }
    }
    if text.len() as u64 == count {
        bytes.left = &[];
        Ok(text)
    } else {
        Err(Stop::Cut)
    }
}

/// Writes bytes after their number.
pub fn put_bytes(out: &mut Vec<u8>, text: &[u8]) -> Result<(), AllocError>
    ensures { IfOk result (λ _. out.new.items ≡ out.old.items ++ write_bytes text.now) }
{
    put_number(out, text.len() as u64)?;
    out.extend_from_slice(text)?;
    Ok(())
}
