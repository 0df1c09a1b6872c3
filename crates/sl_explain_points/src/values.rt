//! The values of fields at a point.

ghost use Rattle.std.specs.Prelude.{◌≡◌, ◌≤◌, ◌%◌, option_map};
ghost use Rattle.sl_explain_points.specs.FieldsAtPoints as spec;
ghost use Rattle.sl_lex.specs.Views.{views};

use crate::sites::Site;
use sl_cube::Point;
use sl_explain_heads::{from, text_at};
use sl_explain_names::{
    has_after, is, is_context_field, kind_by, number_after, text_after, times_in,
};
use sl_lex::Tok;
use sl_spec::{Field, Token};
use sl_word::Endian;

fn order_by(text: &[u8]) -> Endian
    ensures { result ≡ spec.order_by text.now }
{
    if is(text, b"little") {
        Endian::Little
    } else {
        Endian::Big
    }
}

/// The byte order of the token whose definition begins at this index: its own, or else the text's.
fn order_of(tokens: &[Tok<'_>], head: usize) -> Endian
    ensures { result ≡ spec.order_of (views tokens.now) head }
{
    if has_after(tokens, head, 6, b"endian") {
        order_by(text_after(tokens, head, 8))
    } else {
        order_by(text_at(tokens, 3))
    }
}

fn is_width(bits: u64) -> bool
    ensures { result ≡ spec.is_width bits }
{
    bits >= 8 && bits <= 64 && bits % 8 == 0
}

/// The token whose definition begins at this index.
fn token_at<'a>(tokens: &[Tok<'a>], head: usize) -> Option<Token<'a>>
    ensures { result ≡ spec.token_at (views tokens.now) head }
{
    let bits = number_after(tokens, head, 4);
    if is_width(bits) {
        Some(Token {
            name: text_after(tokens, head, 2),
            bits: bits as u8,
            endian: order_of(tokens, head),
        })
    } else {
        None
    }
}

/// Whether the field whose definition begins at this index is signed.
fn is_signed(tokens: &[Tok<'_>], index: usize) -> bool
    ensures { result ≡ spec.is_signed (views tokens.now) index }
{
    times_in(b"signed", from(from(tokens, index), 7)) > 0
}

/// The field whose definition begins at this index.
fn field_at<'a>(tokens: &[Tok<'a>], index: usize) -> Option<Field<'a>>
    ensures { result ≡ spec.field_at (views tokens.now) index }
{
    let low = number_after(tokens, index, 3);
    let high = number_after(tokens, index, 5);
    if low <= high && high <= 63 {
        Some(Field {
            name: text_at(tokens, index),
            token: None,
            low: low as u8,
            high: high as u8,
            signed: is_signed(tokens, index),
            dec: false,
            noflow: false,
        })
    } else {
        None
    }
}

/// The integer of a token that begins at this byte of a point.
fn integer_at(token: &Token<'_>, point: &Point, at: u64) -> Option<u64>
    ensures { result ≡ spec.integer_at token.now point.now at }
{
    let bytes = point.bytes.to_be_bytes();
    if at <= 16 && u64::from(token.bits / 8) <= 16 - at {
        Some(token.number_at(&bytes, at as usize))
    } else {
        None
    }
}

fn integer_in(token: Option<Token<'_>>, point: &Point, at: u64) -> Option<u64>
    ensures { result ≡ spec.integer_in token.entry point.now at }
{
    match token {
        Some(token) => integer_at(&token, point, at),
        None => None,
    }
}

/// The context, or the integer of the field's token.
fn number_of(tokens: &[Tok<'_>], site: Site, point: &Point) -> Option<u64>
    ensures { result ≡ spec.number_of (views tokens.now) site point.now }
{
    if is_context_field(kind_by(site.field.role)) {
        Some(point.context)
    } else {
        integer_in(token_at(tokens, site.field.head), point, site.at)
    }
}

fn value_in(field: &Field<'_>, number: Option<u64>) -> Option<i64>
    ensures { result ≡ spec.value_in field.now number }
{
    match number {
        Some(number) => Some(field.value_of(number)),
        None => None,
    }
}

fn value_by(field: Option<Field<'_>>, number: Option<u64>) -> Option<i64>
    ensures { result ≡ spec.value_by field.entry number }
{
    match field {
        Some(field) => value_in(&field, number),
        None => None,
    }
}

/// The value of a field at a point; none where its token goes past the sixteen bytes.
#[tactic(auto, unfolding(crate::specs::FieldsAtPoints::value_at))]
pub fn value_at(tokens: &[Tok<'_>], site: Site, point: &Point) -> Option<i64>
    ensures { result ≡ spec.value_at (views tokens.now) site point.now }
{
    let number = number_of(tokens, site, point);
    value_by(field_at(tokens, site.field.index), number)
}
