//! How the tokens between two parts of a pattern, or of a call, are bracketed.

ghost use Rattle.std.specs.Prelude.{◌≡◌, ◌≤◌, length};
ghost use Rattle.sl_explain_names.specs.Brackets as spec;
ghost use Rattle.sl_lex.specs.Views.{views};

use crate::tokens::is;
use sl_explain_heads::from;
use sl_lex::Tok;

/// The tokens from one index on up to another.
pub fn between<'t, 'a>(tokens: &'t [Tok<'a>], first: usize, last: usize) -> &'t [Tok<'a>]
    ensures { views result.now ≡ spec.between (views tokens.now) first last }
{
    let left = from(tokens, first);
    let (between, _) = left.split_at(last.saturating_sub(first).min(left.len()));
    between
}

/// How many of the brackets that open in these tokens are open after them.
pub fn levels(tokens: &[Tok<'_>]) -> usize
    ensures { result ≡ spec.levels 0 (views tokens.now) }
{
    let mut level = 0_usize;
    'tokens: for token in tokens {
        if is(token.text, b"(") {
            level += 1;
        } else if is(token.text, b")") {
            level = level.saturating_sub(1);
        }
    }
    level
}

/// Whether the bracket in which these tokens begin isn't closed in them.
fn stays_in(tokens: &[Tok<'_>]) -> bool
    ensures { result ≡ spec.stays_in 0 (views tokens.now) }
{
    let mut level = 0_usize;
    'tokens: for token in tokens {
        if is(token.text, b"(") {
            level += 1;
        } else if is(token.text, b")") {
            if level == 0 {
                return false;
            }
            level -= 1;
        }
    }
    true
}

/// Whether the token of the first index is in brackets in which the other one is too, by itself or
/// in further ones.
pub fn encloses(tokens: &[Tok<'_>], mark: usize, index: usize) -> bool
    ensures { result ≡ spec.encloses (views tokens.now) mark index }
{
    if mark < index {
        stays_in(between(tokens, mark, index))
    } else {
        levels(between(tokens, index, mark)) == 0
    }
}

/// How a part of a pattern lies to one before it.
#[derive(Clone, Copy)]
pub enum Side {
    /// Neither `;` nor `|` parts them.
    Beside,
    /// It is on the right of a `;` on whose left the other is.
    Behind,
    /// A `|` parts them.
    Apart,
}

fn behind(side: Side) -> Side
    ensures { result ≡ spec.behind side }
{
    match side {
        Side::Beside => Side::Behind,
        Side::Behind => Side::Behind,
        Side::Apart => Side::Apart,
    }
}

/// How what comes after a token with these bytes lies to a part, where so many brackets are open.
fn side_at(level: usize, side: Side, text: &[u8]) -> Side
    ensures { result ≡ spec.side_at level side text.now }
{
    if level != 0 {
        side
    } else if is(text, b")") {
        Side::Beside
    } else if is(text, b"|") {
        Side::Apart
    } else if is(text, b";") {
        behind(side)
    } else {
        side
    }
}

/// How what comes after these tokens lies to the part with which they begin.
fn side_after(tokens: &[Tok<'_>]) -> Side
    ensures { result ≡ spec.side_after 0 Side.Beside (views tokens.now) }
{
    let mut level = 0_usize;
    let mut side = Side::Beside;
    'tokens: for token in tokens {
        side = side_at(level, side, token.text);
        if is(token.text, b"(") {
            level += 1;
        } else if is(token.text, b")") {
            level = level.saturating_sub(1);
        }
    }
    side
}

fn is_behind(side: Side) -> bool
    ensures { result ≡ spec.is_behind side }
{
    matches!(side, Side::Behind)
}

/// Whether the part at the second index is on the right of a `;` on whose left the one at the first
/// index is.
pub fn stands_behind(tokens: &[Tok<'_>], before: usize, index: usize) -> bool
    ensures { result ≡ spec.stands_behind (views tokens.now) before index }
{
    is_behind(side_after(between(tokens, before, index)))
}
