//! The part of a pattern that has its fault.

ghost use Rattle.std.specs.Prelude.{◌≡◌, IfOk};
ghost use Rattle.sl_explain_names.specs.ItemView.{item};
ghost use Rattle.sl_explain_patterns.specs.Findings as spec;
ghost use Rattle.sl_lex.specs.Views.{views};

use sl_explain_heads::{from, text_at};
use sl_explain_names::{
    Item, Kind, Mention, Place, definition, has_after, has_before, is, is_context_field,
    is_integer_at, is_token_field, item_at, number_after, text_after, times_in,
};
use sl_lex::Tok;
use std::alloc::{AllocError, Global};

/// What is wrong with a part of a pattern.
#[derive(Clone, Copy)]
pub enum Finding {
    /// The field's values have so many bits, or one more for the sign.
    Values { bits: u64, signed: bool },
    /// On the left there are fields of the token whose definition begins at this index, on the right
    /// one of that one.
    Tokens { left: usize, right: usize },
}

/// A part of a pattern, by the index of its token.
#[derive(Clone, Copy)]
pub struct Culprit {
    pub index: usize,
    pub finding: Finding,
}

/// The token whose fields are joined by `&` so far.
#[derive(Clone, Copy)]
enum Chain {
    /// There is none yet.
    Empty,
    /// That whose definition begins at this index.
    Of(usize),
    /// It hangs on a table, or on a part in brackets.
    Unknown,
}

/// The definition of a name, as it is known in an item.
fn definition_of(i: &Item<'_, '_>, name: &[u8]) -> Option<Mention>
    ensures { result ≡ spec.definition_of (item i.now) name.now }
{
    definition(i.tokens, i.names.as_slice(), i.start, name)
}

// ---- a value that a field never has

/// The bits of the field that is defined at this index, less 1.
fn width_at(tokens: &[Tok<'_>], index: usize) -> u64
    ensures { result ≡ spec.width_at (views tokens.now) index }
{
    number_after(tokens, index, 5).saturating_sub(number_after(tokens, index, 3))
}

fn is_signed_at(tokens: &[Tok<'_>], index: usize) -> bool
    ensures { result ≡ spec.is_signed_at (views tokens.now) index }
{
    0 < times_in(b"signed", from(from(tokens, index), 7))
}

/// The bits of the field's greatest value.
fn value_bits(tokens: &[Tok<'_>], index: usize) -> u64
    ensures { result ≡ spec.value_bits (views tokens.now) index }
{
    let width = width_at(tokens, index);
    if is_signed_at(tokens, index) {
        width
    } else {
        width.saturating_add(1)
    }
}

/// Whether no number of so many bits is this value.
fn is_past(bits: u64, value: u64) -> bool
    ensures { result ≡ spec.is_past bits value }
{
    bits < 64 && !(value < 1 << bits)
}

/// Whether a constraint ends before a token with these bytes.
fn ends_constraint(text: &[u8]) -> bool
    ensures { result ≡ spec.ends_constraint text.now }
{
    is(text, b"&")
        || is(text, b";")
        || is(text, b"|")
        || is(text, b")")
        || is(text, b"...")
        || is(text, b"[")
        || is(text, b"{")
        || is(text, b"unimpl")
}

/// Whether a place is a name that has to have the value of one integer.
fn has_value(i: &Item<'_, '_>, place: Place) -> bool
    ensures { result ≡ spec.has_value (item i.now) place }
{
    i.is_pattern_name(place)
        && has_after(i.tokens, place.index, 1, b"=")
        && is_integer_at(from(i.tokens, place.index), 2)
        && ends_constraint(text_after(i.tokens, place.index, 3))
}

fn value_finding(tokens: &[Tok<'_>], value: u64, definition: Option<Mention>) -> Option<Finding>
    ensures { result ≡ spec.value_finding (views tokens.now) value definition }
{
    let index = definition?.index;
    let bits = value_bits(tokens, index);
    if is_past(bits, value) {
        let signed = is_signed_at(tokens, index);
        Some(Finding::Values { bits, signed })
    } else {
        None
    }
}

/// What is wrong with a value that the field at a place never has.
fn never_finding(i: &Item<'_, '_>, place: Place) -> Option<Finding>
    ensures { result ≡ spec.never_finding (item i.now) place }
{
    if has_value(i, place) {
        let value = number_after(i.tokens, place.index, 2);
        value_finding(i.tokens, value, definition_of(i, i.name_at(place)))
    } else {
        None
    }
}

/// The first place with a value that its field never has.
fn never_in(i: &Item<'_, '_>) -> Option<Culprit>
    ensures { result ≡ spec.never_in (item i.now) i.now.places.items }
{
    let places = i.places.as_slice();
    'places: for at in 0..places.len() {
        let index = places[at].index;
        if let Some(what) = never_finding(i, places[at]) {
            return Some(Culprit {
                index,
                finding: what,
            });
        }
    }
    None
}

// ---- fields of two tokens joined by `&`

/// What is joined so far, with a name of this kind that is defined so.
fn chain_after(chain: Chain, kind: Kind, definition: Option<Mention>) -> Chain
    ensures { result ≡ spec.chain_after chain kind definition }
{
    match definition {
        Some(of) => {
            if is_token_field(kind) {
                Chain::Of(of.head)
            } else if is_context_field(kind) {
                chain
            } else {
                Chain::Unknown
            }
        }
        None => Chain::Unknown,
    }
}

/// What is wrong where such a name is joined to what is there so far.
fn differs(chain: Chain, kind: Kind, definition: Option<Mention>) -> Option<Finding>
    ensures { result ≡ spec.differs chain kind definition }
{
    match (chain, definition) {
        (Chain::Of(left), Some(of)) => {
            if is_token_field(kind) && left != of.head {
                let right = of.head;
                Some(Finding::Tokens { left, right })
            } else {
                None
            }
        }
        _ => None,
    }
}

/// Whether nothing after a token with these bytes is joined to what is before it.
fn ends_chain(text: &[u8]) -> bool
    ensures { result ≡ spec.ends_chain text.now }
{
    is(text, b";") || is(text, b"|") || is(text, b"is") || is(text, b":")
}

/// Whether what is joined isn't known after a token with these bytes.
fn hides_chain(text: &[u8]) -> bool
    ensures { result ≡ spec.hides_chain text.now }
{
    is(text, b"(") || is(text, b")") || is(text, b"...")
}

fn chain_at_mark(chain: Chain, text: &[u8]) -> Chain
    ensures { result ≡ spec.chain_at_mark chain text.now }
{
    if ends_chain(text) {
        Chain::Empty
    } else if hides_chain(text) {
        Chain::Unknown
    } else {
        chain
    }
}

/// What is joined after a place.
fn chain_at(i: &Item<'_, '_>, chain: Chain, place: Place) -> Chain
    ensures { result ≡ spec.chain_at (item i.now) chain place }
{
    if i.is_pattern_name(place) {
        let name = i.name_at(place);
        chain_after(chain, i.kind_of(name), definition_of(i, name))
    } else {
        chain_at_mark(chain, text_at(i.tokens, place.index))
    }
}

/// What is wrong with the operator before a place, with this joined before it.
fn joined_finding(i: &Item<'_, '_>, chain: Chain, place: Place) -> Option<Finding>
    ensures { result ≡ spec.joined_finding (item i.now) chain place }
{
    if i.is_pattern_name(place) && has_before(i.tokens, place.index, 1, b"&") {
        let name = i.name_at(place);
        differs(chain, i.kind_of(name), definition_of(i, name))
    } else {
        None
    }
}

/// The first `&` that joins fields of two tokens.
fn joined_in(i: &Item<'_, '_>) -> Option<Culprit>
    ensures { result ≡ spec.joined_in (item i.now) Chain.Empty i.now.places.items }
{
    let places = i.places.as_slice();
    let mut chain = Chain::Empty;
    'places: for at in 0..places.len() {
        let place = places[at];
        if let Some(what) = joined_finding(i, chain, place) {
            return Some(Culprit {
                index: place.index.saturating_sub(1),
                finding: what,
            });
        }
        chain = chain_at(i, chain, place);
    }
    None
}

// ---- the culprit

/// The part of the pattern of the item whose first token has this index that nothing matches.
/// `None` where none can be told.
#[tactic(auto, unfolding(crate::specs::Findings::never_culprit))]
pub fn find_never(
    alloc: Global,
    tokens: &[Tok<'_>],
    start: usize,
) -> Result<Option<Culprit>, AllocError>
    ensures { IfOk result (λ found. found ≡ spec.never_culprit (views tokens.now) start) }
{
    let i = item_at(alloc, tokens, start)?;
    Ok(never_in(&i))
}

/// The operator in it that joins two tokens.
#[tactic(auto, unfolding(crate::specs::Findings::joined_culprit))]
pub fn find_joined(
    alloc: Global,
    tokens: &[Tok<'_>],
    start: usize,
) -> Result<Option<Culprit>, AllocError>
    ensures { IfOk result (λ found. found ≡ spec.joined_culprit (views tokens.now) start) }
{
    let i = item_at(alloc, tokens, start)?;
    Ok(joined_in(&i))
}
