//! Where in an instruction the token of a pattern's field begins.

ghost use Rattle.std.specs.Prelude.{◌≡◌, find};
ghost use Rattle.sl_explain_names.specs.ItemView.{item};
ghost use Rattle.sl_explain_points.specs.Readings as spec;
ghost use Rattle.sl_lex.specs.Views.{views};

use sl_explain_names::{
    Item, Mention, Part, Place, definition, is, is_table, is_token_field, kind_by, number_after,
};
use sl_lex::Tok;

/// What is read of a pattern: how many brackets are open, the bytes of an instruction at which the
/// part after the last `;` begins and ends, whether a table or `...` was read, and whether it isn't
/// known any more where the part begins.
#[derive(Clone, Copy)]
pub struct Reading {
    pub depth: u64,
    pub begin: u64,
    pub end: u64,
    pub varies: bool,
    pub lost: bool,
}

/// Nothing is read.
pub fn start() -> Reading
    ensures { result ≡ spec.start }
{
    Reading {
        depth: 0,
        begin: 0,
        end: 0,
        varies: false,
        lost: false,
    }
}

/// After `(`.
fn opened(r: Reading) -> Reading
    ensures { result ≡ spec.opened r }
{
    let depth = r.depth.saturating_add(1);
    Reading { depth, ..r }
}

/// After `)`.
fn closed(r: Reading) -> Reading
    ensures { result ≡ spec.closed r }
{
    let depth = r.depth.saturating_sub(1);
    Reading { depth, ..r }
}

/// After `;`.
fn cut(r: Reading) -> Reading
    ensures { result ≡ spec.cut r }
{
    let begin = r.end;
    let lost = r.lost || r.varies || r.depth != 0;
    Reading { begin, lost, ..r }
}

/// After `|`.
fn parted(r: Reading) -> Reading
    ensures { result ≡ spec.parted r }
{
    if r.depth == 0 {
        Reading {
            depth: 0,
            begin: 0,
            end: 0,
            ..r
        }
    } else {
        r
    }
}

/// After a table or `...`.
fn varying(r: Reading) -> Reading
    ensures { result ≡ spec.varying r }
{
    Reading { varies: true, ..r }
}

/// After a field of a token of so many bytes.
fn widened(r: Reading, bytes: u64) -> Reading
    ensures { result ≡ spec.widened r bytes }
{
    let end = r.end.max(r.begin.saturating_add(bytes));
    Reading { end, ..r }
}

/// The bytes of the token in whose definition this is.
fn token_bytes(tokens: &[Tok<'_>], mention: Mention) -> u64
    ensures { result ≡ spec.token_bytes (views tokens.now) mention }
{
    number_after(tokens, mention.head, 4).min(64) / 8
}

/// After a name that is defined here.
fn after_definition(tokens: &[Tok<'_>], r: Reading, mention: Mention) -> Reading
    ensures { result ≡ spec.after_definition (views tokens.now) r mention }
{
    if is_token_field(kind_by(mention.role)) {
        widened(r, token_bytes(tokens, mention))
    } else if is_table(kind_by(mention.role)) {
        varying(r)
    } else {
        r
    }
}

/// After a name that is defined here, or nowhere.
fn after_name(tokens: &[Tok<'_>], r: Reading, mention: Option<Mention>) -> Reading
    ensures { result ≡ spec.after_name (views tokens.now) r mention }
{
    match mention {
        Some(mention) => after_definition(tokens, r, mention),
        None => r,
    }
}

/// What defines the name at a place.
pub fn definition_at(i: &Item<'_, '_>, place: Place) -> Option<Mention>
    ensures { result ≡ spec.definition_at (item i.now) place }
{
    definition(i.tokens, i.names.as_slice(), i.start, i.name_at(place))
}

/// After a token of a pattern.
#[tactic(auto, unfolding(crate::specs::Readings::after_token))]
fn after_token(i: &Item<'_, '_>, r: Reading, place: Place) -> Reading
    ensures { result ≡ spec.after_token (item i.now) r place }
{
    let text = i.name_at(place);
    if is(text, b"(") {
        opened(r)
    } else if is(text, b")") {
        closed(r)
    } else if is(text, b";") {
        cut(r)
    } else if is(text, b"|") {
        parted(r)
    } else if is(text, b"...") {
        varying(r)
    } else {
        after_name(i.tokens, r, definition_at(i, place))
    }
}

/// After a token of an item.
pub fn after_part(i: &Item<'_, '_>, r: Reading, place: Place) -> Reading
    ensures { result ≡ spec.after_part place.part (item i.now) r place }
{
    match place.part {
        Part::Begin => start(),
        Part::Pattern => after_token(i, r, place),
        _ => r,
    }
}
