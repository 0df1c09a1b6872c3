//! The lines of a text.

ghost use Rattle.std.specs.Prelude.{◌≡◌, [], ◌∷◌, ◌<◌, length, MatchOption, IfSome};
ghost use Rattle.sl_preproc_directives.specs.Lines.{lines};

use crate::parts::{Part, split_line};

/// The first line, without its line feed, and what stands behind that.
pub fn first_line(text: &[u8]) -> Option<Part<'_>>
    ensures lines { MatchOption result (lines text.now ≡ []) (λ p. lines text.now ≡ p.0.now ∷ lines p.1.now) }
    ensures shorter { IfSome result (λ p. length p.1.now < length text.now) }
{
    if text.is_empty() {
        return None;
    }
    let (line, behind) = split_line(text);
    match behind {
        [] => Some((line, behind)),
        [_, rest @ ..] => Some((line, rest)),
    }
}
