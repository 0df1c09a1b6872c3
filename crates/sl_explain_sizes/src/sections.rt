//! The first part of a section whose sizes are at fault.

ghost use Rattle.std.specs.Prelude.{◌≡◌, ◌++◌, IfOk, OnOk};
ghost use Rattle.sl_explain_names.specs.ItemView.{item};
ghost use Rattle.sl_explain_names.specs.Items.{is_macro};
ghost use Rattle.sl_explain_sizes.specs.ScopeView.{scope};
ghost use Rattle.sl_explain_sizes.specs.Sections as spec;
ghost use Rattle.sl_lex.specs.Views.{views};

use crate::faults::{
    Culprit, Finding, Inside, Wanted, Why, fault_of, if_so, or_else, statement_fault,
};
use crate::slices::{beyond, extent_of, front, outside, up_to};
use crate::values::{inside, is_call, value_of};
use crate::widths::{NamedWidth, Scope, Width, is_bytes, is_untold, named, told};
use sl_explain_heads::{from, text_at};
use sl_explain_names::{
    Item, Kind, Mention, Place, definition, has_after, is_free, is_section, item_at, number_after,
};
use sl_lex::Tok;
use std::alloc::{AllocError, Global};

// ---- locals

/// The value after the `=` that comes after the name which begins these tokens.
fn value_after<'t, 'a>(tokens: &'t [Tok<'a>]) -> &'t [Tok<'a>]
    ensures { views result.now ≡ spec.value_after (views tokens.now) }
{
    up_to(from(tokens, 2), b";")
}

/// The width that a local has by these tokens, with which its name begins.
fn local_width(s: &Scope<'_, '_, '_>, tokens: &[Tok<'_>]) -> Width
    ensures { result ≡ spec.local_width (scope s.now) (views tokens.now) }
{
    if has_after(tokens, 0, 1, b":") {
        told(number_after(tokens, 0, 2))
    } else if has_after(tokens, 0, 1, b"=") {
        value_of(s, value_after(tokens)).width
    } else {
        Width::Untold
    }
}

fn makes_local(i: &Item<'_, '_>, place: Place) -> bool
    ensures { result ≡ spec.makes_local (item i.now) place }
{
    i.is_declared(place) || i.is_assigned(place)
}

/// The width that the name of a place gets there, where nothing before tells it.
fn new_width(s: &Scope<'_, '_, '_>, place: Place) -> Width
    ensures { result ≡ spec.new_width (scope s.now) place }
{
    if makes_local(s.item, place) && is_untold(named(s, s.item.name_at(place))) {
        local_width(s, from(s.item.tokens, place.index))
    } else {
        Width::Untold
    }
}

/// Appends the name of a place with its width, where that is told.
fn push_named(known: &mut Vec<NamedWidth>, place: Place, width: Width) -> Result<(), AllocError>
    ensures { OnOk result (known.new.items ≡ known.old.items ++ spec.named_at place width) }
{
    if is_bytes(width) {
        let index = place.index;
        known.push(NamedWidth { index, width })?;
    }
    Ok(())
}

/// Appends the local to which a place gives a size.
fn push_local(known: &mut Vec<NamedWidth>, i: &Item<'_, '_>, place: Place) -> Result<(), AllocError>
    ensures { OnOk result (known.new.items ≡ known.old.items
        ++ spec.local_at (spec.scope_of (item i.now) known.old.items) place) }
{
    let width = new_width(
        &Scope {
            item: i,
            known: known.as_slice(),
        },
        place,
    );
    push_named(known, place, width)
}

/// The names that are known in an item: those that are given, and its locals.
fn known_of(
    alloc: Global,
    i: &Item<'_, '_>,
    given: &[NamedWidth],
) -> Result<Vec<NamedWidth>, AllocError>
    ensures { IfOk result (λ known. known.items
        ≡ spec.known_from (item i.now) given.now i.now.places.items) }
{
    let places = i.places.as_slice();
    let mut known = Vec::new(alloc);
    known.extend_from_slice(given)?;
    'places: for at in 0..places.len() {
        push_local(&mut known, i, places[at])?;
    }
    Ok(known)
}

// ---- calls of macros

fn first_argument<'t, 'a>(tokens: &'t [Tok<'a>]) -> &'t [Tok<'a>]
    ensures { views result.now ≡ spec.first_argument (views tokens.now) }
{
    front(tokens, outside(b",", tokens))
}

fn later_arguments<'t, 'a>(tokens: &'t [Tok<'a>]) -> &'t [Tok<'a>]
    ensures { views result.now ≡ spec.later_arguments (views tokens.now) }
{
    beyond(tokens, outside(b",", tokens))
}

fn argument_width(width: Width) -> Width
    ensures { result ≡ spec.argument_width width }
{
    match width {
        Width::Bytes(size) => Width::Bytes(size),
        Width::Number => Width::Number,
        Width::Open => Width::Untold,
        Width::Untold => Width::Untold,
    }
}

/// The parameters of a macro, with the widths of the arguments.
fn given_of(
    alloc: Global,
    s: &Scope<'_, '_, '_>,
    of: &Item<'_, '_>,
    arguments: &[Tok<'_>],
) -> Result<Vec<NamedWidth>, AllocError>
    ensures { IfOk result (λ given. given.items
        ≡ spec.given_from (scope s.now) (item of.now) (views arguments.now) of.now.places.items) }
{
    let places = of.places.as_slice();
    let mut given = Vec::new(alloc);
    let mut left = arguments;
    'places: for at in 0..places.len() {
        if of.is_parameter_place(places[at]) {
            given.push(NamedWidth {
                index: places[at].index,
                width: argument_width(value_of(s, first_argument(left)).width),
            })?;
            left = later_arguments(left);
        }
    }
    Ok(given)
}

fn is_macro(kind: Kind) -> bool
    ensures { result ≡ is_macro kind }
{
    matches!(kind, Kind::Macro)
}

/// The macro that a statement calls.
fn macro_of(i: &Item<'_, '_>, tokens: &[Tok<'_>]) -> Option<Mention>
    ensures { result ≡ spec.macro_of (item i.now) (views tokens.now) }
{
    let name = text_at(tokens, 0);
    if is_call(tokens) && is_macro(i.kind_of(name)) {
        definition(i.tokens, i.names.as_slice(), i.start, name)
    } else {
        None
    }
}

/// The tokens at which a call is told: its arguments, or its name.
fn call_tokens<'t, 'a>(tokens: &'t [Tok<'a>]) -> &'t [Tok<'a>]
    ensures { views result.now ≡ spec.call_tokens (views tokens.now) }
{
    let arguments = inside(tokens);
    if arguments.len() == 0 {
        front(tokens, 1)
    } else {
        arguments
    }
}

/// The innermost macro with a byte, this one where it is none of another.
fn inside_by(inner: Option<Inside>, of: usize, byte: usize) -> Inside
    ensures { result ≡ spec.inside_by inner of byte }
{
    match inner {
        Some(inner) => inner,
        None => Inside { of, byte },
    }
}

/// What is wrong in a macro, told at its call.
fn called(of: usize, tokens: &[Tok<'_>], found: Option<Culprit>) -> Option<Culprit>
    ensures { result ≡ spec.called of (views tokens.now) found }
{
    match found {
        Some(culprit) => Some(Culprit {
            extent: extent_of(call_tokens(tokens)),
            finding: culprit.finding,
            inside: Some(inside_by(culprit.inside, of, culprit.extent.byte)),
        }),
        None => None,
    }
}

/// What is said of a macro that isn't looked into.
fn too_deep(wanted: Wanted, tokens: &[Tok<'_>]) -> Option<Culprit>
    ensures { result ≡ spec.too_deep wanted (views tokens.now) }
{
    match wanted {
        Wanted::Ties(_) => if_so(true, extent_of(tokens), Finding::Tied),
        Wanted::Clash => None,
        Wanted::Unfixed => None,
    }
}

// ---- sections

/// The statement that begins at an index.
fn statement_at<'t, 'a>(i: &Item<'t, 'a>, index: usize) -> &'t [Tok<'a>]
    ensures { views result.now ≡ spec.statement_at (item i.now) index }
{
    up_to(from(i.tokens, index), b";")
}

fn begins_in_section(i: &Item<'_, '_>, place: Place) -> bool
    ensures { result ≡ spec.begins_in_section (item i.now) place }
{
    is_section(place.part) && i.begins_statement(place)
}

/// The first part at fault of a macro that a statement calls, in calls of at most so many levels.
#[cycle(calls)]
#[tactic(auto, using(crate::proofs::DepthLemmas::call_out, crate::proofs::DepthLemmas::call_step,))]
fn call_fault(
    alloc: Global,
    levels: u32,
    wanted: Wanted,
    s: &Scope<'_, '_, '_>,
    tokens: &[Tok<'_>],
    of: Mention,
) -> Result<Option<Culprit>, AllocError>
    ensures { IfOk result (λ found. found
        ≡ spec.call_in wanted levels (scope s.now) (views tokens.now) of) }
{
    if levels == 0 {
        return Ok(too_deep(wanted, tokens));
    }
    let inner = item_at(alloc, s.item.tokens, of.head)?;
    let given = given_of(alloc, s, &inner, inside(tokens))?;
    let found = section_by(alloc, levels - 1, wanted, &inner, given.as_slice())?;
    Ok(called(of.index, tokens, found))
}

/// The first part at fault of a statement, with the arguments of a macro's call before the macro.
#[cycle(calls)]
fn statement_by(
    alloc: Global,
    levels: u32,
    wanted: Wanted,
    s: &Scope<'_, '_, '_>,
    tokens: &[Tok<'_>],
) -> Result<Option<Culprit>, AllocError>
    ensures { IfOk result (λ found. found
        ≡ spec.statement_by wanted (spec.call_in wanted levels) (scope s.now) (views tokens.now)
        (spec.macro_of (item s.now.item.now) (views tokens.now))) }
{
    match macro_of(s.item, tokens) {
        Some(of) => {
            let found = call_fault(alloc, levels, wanted, s, tokens, of)?;
            Ok(or_else(fault_of(wanted, s, inside(tokens)), found))
        }
        None => Ok(statement_fault(wanted, s, tokens)),
    }
}

/// The first part at fault of the statement that begins at a place, if one does.
#[cycle(calls)]
fn place_by(
    alloc: Global,
    levels: u32,
    wanted: Wanted,
    s: &Scope<'_, '_, '_>,
    place: Place,
) -> Result<Option<Culprit>, AllocError>
    ensures { IfOk result (λ found. found
        ≡ spec.place_by wanted (spec.call_in wanted levels) (scope s.now) place) }
{
    if begins_in_section(s.item, place) {
        statement_by(alloc, levels, wanted, s, statement_at(s.item, place.index))
    } else {
        Ok(None)
    }
}

/// The first place at which a statement begins that is at fault.
#[cycle(calls)]
fn places_by(
    alloc: Global,
    levels: u32,
    wanted: Wanted,
    s: &Scope<'_, '_, '_>,
) -> Result<Option<Culprit>, AllocError>
    ensures { IfOk result (λ found. found
        ≡ spec.places_by wanted (spec.call_in wanted levels) (scope s.now)
        s.now.item.now.places.items) }
{
    let places = s.item.places.as_slice();
    'places: for at in 0..places.len() {
        let found = place_by(alloc, levels, wanted, s, places[at])?;
        if let Some(culprit) = found {
            return Ok(Some(culprit));
        }
    }
    Ok(None)
}

/// The first part at fault of a section, or of a macro whose parameters have these widths.
#[cycle(calls)]
fn section_by(
    alloc: Global,
    levels: u32,
    wanted: Wanted,
    i: &Item<'_, '_>,
    given: &[NamedWidth],
) -> Result<Option<Culprit>, AllocError>
    ensures { IfOk result (λ found. found
        ≡ spec.section_by wanted (spec.call_in wanted levels) (item i.now)
        given.now) }
{
    let known = known_of(alloc, &*i, &*given)?;
    let s = Scope {
        item: &*i,
        known: known.as_slice(),
    };
    places_by(alloc, levels, wanted, &s)
}

/// How many calls of macros in one another are looked into.
const MOST_LEVELS: u32 = 16;

/// The first part at fault of a section with these names known.
fn section_fault(
    alloc: Global,
    wanted: Wanted,
    i: &Item<'_, '_>,
    given: &[NamedWidth],
) -> Result<Option<Culprit>, AllocError>
    ensures { IfOk result (λ found. found
        ≡ spec.section_fault wanted (item i.now) given.now) }
{
    section_by(alloc, MOST_LEVELS, wanted, i, given)
}

// ---- locals whose size nothing says

/// Whether no part of a section ties the name of a place, with so many bytes, to what has another
/// size, or may have.
fn is_loose(alloc: Global, i: &Item<'_, '_>, place: Place, size: u64) -> Result<bool, AllocError>
    ensures { IfOk result (λ b. b
        ≡ spec.is_loose (item i.now) place size) }
{
    let given = [NamedWidth {
        index: place.index,
        width: Width::Bytes(size),
    }];
    let found = section_fault(alloc, Wanted::Ties(size), i, &given)?;
    Ok(found.is_none())
}

/// Whether a place gives a value to a local, or declares one, whose size isn't told.
fn is_unsaid_local(s: &Scope<'_, '_, '_>, place: Place) -> bool
    ensures { result ≡ spec.is_unsaid_local (scope s.now) place }
{
    let name = s.item.name_at(place);
    makes_local(s.item, place)
        && is_untold(named(s, name))
        && is_free(s.item.kind_of(name))
        && !s.item.is_operand(name)
        && !s.item.is_parameter(name)
}

fn is_loose_local(
    alloc: Global,
    i: &Item<'_, '_>,
    s: &Scope<'_, '_, '_>,
    place: Place,
) -> Result<bool, AllocError>
    ensures { IfOk result (λ b. b
        ≡ spec.is_loose_local (item i.now) (scope s.now) place) }
{
    if is_unsaid_local(s, place) {
        let one = is_loose(alloc, i, place, 13)?;
        let other = is_loose(alloc, i, place, 15)?;
        Ok(one && other)
    } else {
        Ok(false)
    }
}

fn name_tokens<'t, 'a>(i: &Item<'t, 'a>, place: Place) -> &'t [Tok<'a>]
    ensures { views result.now ≡ spec.name_tokens (item i.now) place }
{
    front(from(i.tokens, place.index), 1)
}

/// The first place of a local of which nothing says the size.
fn loose_in(
    alloc: Global,
    i: &Item<'_, '_>,
    s: &Scope<'_, '_, '_>,
) -> Result<Option<Culprit>, AllocError>
    ensures { IfOk result (λ found. found
        ≡ spec.loose_in (item i.now) (scope s.now) i.now.places.items) }
{
    let places = i.places.as_slice();
    'places: for at in 0..places.len() {
        let place = places[at];
        let is_loose = is_loose_local(alloc, i, s, place)?;
        if is_loose {
            let part = extent_of(name_tokens(i, place));
            let why = Why::Local;
            return Ok(if_so(true, part, Finding::Unsaid { part, why }));
        }
    }
    Ok(None)
}

// ---- the culprit

fn unfixed_in(alloc: Global, i: &Item<'_, '_>) -> Result<Option<Culprit>, AllocError>
    ensures { IfOk result (λ found. found
        ≡ spec.unfixed_in (item i.now)) }
{
    let known = known_of(alloc, i, &[])?;
    let s = Scope {
        item: i,
        known: known.as_slice(),
    };
    let first = loose_in(alloc, i, &s)?;
    let second = section_fault(alloc, Wanted::Unfixed, i, &[])?;
    Ok(or_else(first, second))
}

/// The part of the section of the item whose first token has this index whose sizes clash. `None`
/// where none can be told.
#[tactic(auto, unfolding(crate::specs::Sections::clash_culprit))]
pub fn find_clash(
    alloc: Global,
    tokens: &[Tok<'_>],
    start: usize,
) -> Result<Option<Culprit>, AllocError>
    ensures { IfOk result (λ found. found ≡ spec.clash_culprit (views tokens.now) start) }
{
    let i = item_at(alloc, tokens, start)?;
    section_fault(alloc, Wanted::Clash, &i, &[])
}

/// The part of it of which nothing says the size.
#[tactic(auto, unfolding(crate::specs::Sections::unfixed_culprit))]
pub fn find_unfixed(
    alloc: Global,
    tokens: &[Tok<'_>],
    start: usize,
) -> Result<Option<Culprit>, AllocError>
    ensures { IfOk result (λ found. found ≡ spec.unfixed_culprit (views tokens.now) start) }
{
    let i = item_at(alloc, tokens, start)?;
    unfixed_in(alloc, &i)
}
