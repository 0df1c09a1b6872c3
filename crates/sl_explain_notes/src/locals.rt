//! Locals of sections and of macros that are never read.

ghost use Rattle.std.specs.Prelude.{◌≡◌, ◌++◌, OnOk};
ghost use Rattle.sl_explain_heads.specs.Modes.{mode_view};
ghost use Rattle.sl_explain_names.specs.ItemView.{item};
ghost use Rattle.sl_explain_notes.specs.Locals as spec;
ghost use Rattle.sl_lex.specs.Views.{views};

use crate::notes::{Note, Told};
use sl_explain_heads::{Mode, begins_item, next_mode, step_in, text_at};
use sl_explain_names::{
    Form, Item, Mention, Place, is, is_assigned_bits, is_called, is_free, is_value_name, places_of,
};
use sl_lex::Tok;
use std::alloc::{AllocError, Global};

// ---- the names of a section

/// Whether a place declares its name or gives it a value.
fn gives(i: &Item<'_, '_>, place: Place) -> bool
    ensures { result ≡ spec.gives (item i.now) place }
{
    i.is_declared(place) || i.is_assigned(place)
}

/// Whether a place takes the value of its name.
fn takes(i: &Item<'_, '_>, place: Place) -> bool
    ensures { result ≡ spec.takes (item i.now) place }
{
    (is_value_name(i, place) || is_called(i, place)) && !is_assigned_bits(i, place)
}

/// Whether a place reads this name.
fn reads(i: &Item<'_, '_>, name: &[u8], place: Place) -> bool
    ensures { result ≡ spec.reads (item i.now) name.now place }
{
    i.is_named(name, place) && takes(i, place)
}

/// Whether the section reads the name.
fn is_read(i: &Item<'_, '_>, name: &[u8]) -> bool
    ensures { result ≡ spec.is_read (item i.now) name.now }
{
    i.places.iter().any(|p| reads(i, name, *p))
}

/// Whether a place before another one gives the name a value.
fn gives_before(i: &Item<'_, '_>, at: Place, name: &[u8], place: Place) -> bool
    ensures { result ≡ spec.gives_before (item i.now) at name.now place }
{
    place.index < at.index && i.is_named(name, place) && gives(i, place)
}

/// Whether the name has a value before this place.
fn is_given_before(i: &Item<'_, '_>, at: Place, name: &[u8]) -> bool
    ensures { result ≡ spec.is_given_before (item i.now) at name.now }
{
    i.places.iter().any(|p| gives_before(i, at, name, *p))
}

/// Whether nothing else has the name: no operand, no parameter, no definition.
fn is_new(i: &Item<'_, '_>, name: &[u8]) -> bool
    ensures { result ≡ spec.is_new (item i.now) name.now }
{
    !i.is_operand(name) && !i.is_parameter(name) && is_free(i.kind_of(name))
}

/// Whether the name at a place that gives it a value is that of a local.
fn is_local(i: &Item<'_, '_>, place: Place, name: &[u8]) -> bool
    ensures { result ≡ spec.is_local (item i.now) place name.now }
{
    i.is_declared(place) || is_new(i, name)
}

/// Whether it is the first place of a local that its section doesn't read.
fn is_unread(i: &Item<'_, '_>, place: Place, name: &[u8]) -> bool
    ensures { result ≡ spec.is_unread (item i.now) place name.now }
{
    !is_read(i, name) && !is_given_before(i, place, name) && is_local(i, place, name)
}

/// Whether a place is the first one of a local that its section doesn't read.
fn is_never_read(i: &Item<'_, '_>, place: Place) -> bool
    ensures { result ≡ spec.is_never_read (item i.now) place }
{
    gives(i, place) && is_unread(i, place, i.name_at(place))
}

/// Appends the first places of such locals.
fn push_unread(out: &mut Vec<Told>, i: &Item<'_, '_>) -> Result<(), AllocError>
    ensures { OnOk result (out.new.items ≡ out.old.items ++ spec.unread_in (item i.now)) }
{
    let places = i.places.as_slice();
    'places: for at in 0..places.len() {
        let place = places[at];
        if is_never_read(i, place) {
            out.push(Told {
                index: place.index,
                note: Note::NeverRead,
            })?;
        }
    }
    Ok(())
}

// ---- the items of a text

/// Makes it the macro, or the constructor in these blocks, whose first token has this index.
fn enter(
    alloc: Global,
    i: &mut Item<'_, '_>,
    blocks: &[usize],
    start: usize,
) -> Result<(), AllocError>
    ensures entered { OnOk result (item i.new
        ≡ spec.item_in (views i.old.tokens.now) i.old.names.items blocks.now start) }
    ensures tokens { OnOk result (i.new.tokens.now ≡ i.old.tokens.now) }
    ensures names { OnOk result (i.new.names.items ≡ i.old.names.items) }
{
    i.start = start;
    i.table = b"";
    i.places = places_of(alloc, i.tokens, Form::Table, blocks, start)?;
    Ok(())
}

/// Whether items that begin with this word have no section.
fn is_without_section(text: &[u8]) -> bool
    ensures { result ≡ spec.is_without_section text.now }
{
    is(text, b"define") || is(text, b"attach") || is(text, b"with") || is(text, b"}")
}

/// Whether the token of this index, in this mode, begins an item that may have a section.
fn begins(mode: Mode, tokens: &[Tok<'_>], index: usize) -> bool
    ensures { result ≡ spec.begins (mode_view mode) (views tokens.now) index }
{
    begins_item(mode, tokens, index) && !is_without_section(text_at(tokens, index))
}

/// Appends the locals of the item that the token of this index in this mode begins, if it does.
fn push_locals_at(
    alloc: Global,
    out: &mut Vec<Told>,
    i: &mut Item<'_, '_>,
    mode: Mode,
    blocks: &[usize],
    index: usize,
) -> Result<(), AllocError>
    ensures told { OnOk result (out.new.items ≡ out.old.items
        ++ spec.locals_at (views i.old.tokens.now) i.old.names.items (mode_view mode) blocks.now
        index) }
    ensures tokens { OnOk result (i.new.tokens.now ≡ i.old.tokens.now) }
    ensures names { OnOk result (i.new.names.items ≡ i.old.names.items) }
{
    if begins(mode, i.tokens, index) {
        enter(alloc, i, blocks, index)?;
        push_unread(out, i)
    } else {
        Ok(())
    }
}

/// Appends the locals of a text that are never read, where it says this of names.
pub fn push_locals(
    alloc: Global,
    out: &mut Vec<Told>,
    tokens: &[Tok<'_>],
    names: Vec<Mention>,
) -> Result<(), AllocError>
    ensures { OnOk result (out.new.items
        ≡ out.old.items ++ spec.locals (views tokens.now) names.items) }
{
    let mut i = Item {
        tokens,
        start: 0,
        table: b"",
        names,
        places: Vec::new(alloc),
    };
    let mut blocks = Vec::new(alloc);
    let mut mode = Mode::Top;
    'tokens: for at in 0..tokens.len() {
        push_locals_at(alloc, out, &mut i, mode, blocks.as_slice(), at)?;
        let text = tokens[at].text;
        step_in(mode, &mut blocks, at, text)?;
        mode = next_mode(mode, text);
    }
    Ok(())
}
