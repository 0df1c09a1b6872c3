//! What is wrong with an argument of a macro.

ghost use Rattle.std.specs.Prelude.{◌≡◌, option_map};
ghost use Rattle.sl_explain_names.specs.Arguments as spec;
ghost use Rattle.sl_explain_names.specs.ItemView.{item};
ghost use Rattle.sl_lex.specs.Views.{views};

use crate::brackets::between;
use crate::findings::Finding;
use crate::item::{Item, begins_at, is_macro, is_section};
use crate::names::{Mention, definition};
use crate::patterns::found;
use crate::places::Place;
use crate::sections::{commas, depths, is_called, is_name, is_number};
use crate::tokens::{has_after, has_before, is, text_after};
use sl_explain_heads::from;
use sl_lex::Tok;

// ---- the call

/// Whether a place is the name of a macro that a statement calls.
fn is_macro_call(i: &Item<'_, '_>, place: Place) -> bool
    ensures { result ≡ spec.is_macro_call (item i.now) place }
{
    is_called(i, place) && i.begins_statement(place) && is_macro(i.kind_of(i.name_at(place)))
}

/// The tokens between the bracket after the name of a call and a later token.
fn given_before<'t, 'a>(tokens: &'t [Tok<'a>], call: usize, index: usize) -> &'t [Tok<'a>]
    ensures { views result.now ≡ spec.given_before (views tokens.now) call index }
{
    let left = from(from(tokens, call), 2);
    between(left, 0, index.saturating_sub(call).saturating_sub(2))
}

/// Whether an argument of a call begins at a place.
fn begins_argument(i: &Item<'_, '_>, at: Place, call: Place) -> bool
    ensures { result ≡ spec.begins_argument (item i.now) at call }
{
    (has_before(i.tokens, at.index, 1, b"(") || has_before(i.tokens, at.index, 1, b","))
        && depths(given_before(i.tokens, call.index, at.index)) == 0
}

/// Whether a place is the name of a call, of which an argument begins at another one.
fn takes(i: &Item<'_, '_>, at: Place, call: Place) -> bool
    ensures { result ≡ spec.takes (item i.now) at call }
{
    call.index < at.index
        && is_macro_call(i, call)
        && !i.is_settled(call, at)
        && begins_argument(i, at, call)
}

fn find_call<'x>(i: &'x Item<'_, '_>, at: Place) -> Option<&'x Place>
    ensures { option_map (λ p. p.now) result ≡ spec.call_of (item i.now) at }
{
    i.places.iter().find(|p| takes(i, at, **p))
}

/// The call of a macro of which an argument begins at a place.
fn call_of(i: &Item<'_, '_>, at: Place) -> Option<Place>
    ensures { result ≡ spec.call_of (item i.now) at }
{
    match find_call(i, at) {
        Some(place) => Some(*place),
        None => None,
    }
}

// ---- what the macro assigns

/// The parameter of a macro before which there are so many.
pub fn parameter_name<'a>(tokens: &[Tok<'a>], of: usize, count: usize) -> &'a [u8]
    ensures { result.now ≡ spec.parameter_name (views tokens.now) of count }
{
    text_after(from(from(tokens, of), 2), count, count)
}

/// Whether a statement that begins at this index assigns the name, or bits of it.
fn assigns(tokens: &[Tok<'_>], name: &[u8], index: usize, text: &[u8]) -> bool
    ensures { result ≡ spec.assigns (views tokens.now) name.now index text.now }
{
    is(text, name)
        && begins_at(tokens, index)
        && (has_after(tokens, index, 1, b"=") || has_after(tokens, index, 1, b"["))
}

/// Whether the macro whose name has this index assigns a parameter of this name by itself.
fn macro_assigns(tokens: &[Tok<'_>], name: &[u8], of: usize) -> bool
    ensures { result ≡ spec.macro_assigns (views tokens.now) name.now of }
{
    'tokens: for at in of..tokens.len() {
        let text = tokens[at].text;
        if is(text, b"}") {
            return false;
        }
        if assigns(tokens, name, at, text) {
            return true;
        }
    }
    false
}

// ---- 27

/// Whether a place is a name that is an argument by itself.
fn is_by_itself(i: &Item<'_, '_>, place: Place) -> bool
    ensures { result ≡ spec.is_by_itself (item i.now) place }
{
    is_name(i, place)
        && (has_after(i.tokens, place.index, 1, b",") || has_after(i.tokens, place.index, 1, b")"))
}

/// How many arguments of a call are before a place.
fn count_before(i: &Item<'_, '_>, at: Place, call: Place) -> usize
    ensures { result ≡ spec.count_before (item i.now) at call }
{
    commas(given_before(i.tokens, call.index, at.index))
}

/// What is wrong with an argument whose parameter the macro assigns whose name has this index.
fn given_finding(
    i: &Item<'_, '_>,
    at: Place,
    call: Place,
    of: usize,
    count: usize,
) -> Option<Finding>
    ensures { result ≡ spec.given_finding (item i.now) at call of count }
{
    let call = call.index;
    if is_by_itself(i, at) {
        let is_name = true;
        let finding = Finding::Assigned {
            is_name,
            call,
            of,
            count,
        };
        found(is_number(i, i.name_at(at)), finding)
    } else {
        let is_name = false;
        Some(Finding::Assigned {
            is_name,
            call,
            of,
            count,
        })
    }
}

/// What is wrong with an argument of the macro whose name has this index, before which there are so
/// many.
fn passed_finding(
    i: &Item<'_, '_>,
    at: Place,
    call: Place,
    of: usize,
    count: usize,
) -> Option<Finding>
    ensures { result ≡ spec.passed_finding (item i.now) at call of count }
{
    if macro_assigns(i.tokens, parameter_name(i.tokens, of, count), of) {
        given_finding(i, at, call, of, count)
    } else {
        None
    }
}

fn argument_by(
    i: &Item<'_, '_>,
    at: Place,
    call: Place,
    definition: Option<Mention>,
) -> Option<Finding>
    ensures { result ≡ spec.argument_by (item i.now) at call definition }
{
    match definition {
        Some(of) => passed_finding(i, at, call, of.index, count_before(i, at, call)),
        None => None,
    }
}

/// What is wrong with an argument of a call, if there is one.
fn argument_of(i: &Item<'_, '_>, at: Place, call: Option<Place>) -> Option<Finding>
    ensures { result ≡ spec.argument_of (item i.now) at call }
{
    match call {
        Some(call) => {
            let name = i.name_at(call);
            let definition = definition(i.tokens, i.names.as_slice(), i.start, name);
            argument_by(i, at, call, definition)
        }
        None => None,
    }
}

/// Rule 27: an argument whose parameter the macro assigns is a name that may be assigned.
pub fn argument_finding(i: &Item<'_, '_>, place: Place) -> Option<Finding>
    ensures { result ≡ spec.argument_finding (item i.now) place }
{
    if is_section(place.part) {
        argument_of(i, place, call_of(i, place))
    } else {
        None
    }
}
