//! Where the items of a tree are.

ghost use Rattle.std.specs.Prelude.{◌≡◌, ◌-◌, IfOk, length, map, slice_get, string_bytes};
ghost use Rattle.std.specs.Prelude.{[], slice_index_or};
ghost use Rattle.sl_preproc.specs.Expanded.{or_no_place};
ghost use Rattle.sl_tool_stages.specs.Places.{named, stored_place};

use crate::place::{Name, Place};
use crate::tokens::Tokens;
use sl_ast::items::Spec;
use sl_preproc::Place as Line;
use sl_store_text::item_places;
use std::alloc::{AllocError, Global};

/// Places that were stored with a tree.
#[derive(Drop)]
pub struct Stored {
    /// The names of the files.
    pub files: Vec<String>,
    /// The place of each item in the order of the text, a block's before those of the items inside.
    pub places: Vec<Line>,
}

/// Where the items of a tree are.
#[derive(Drop)]
pub enum Origin<'s, 'r> {
    /// In a text. The place of an item is told by the index of its first token.
    InText(Tokens<'s, 'r>),
    /// At stored places. The place of an item is told by its number among all items.
    Stored(Stored),
}

/// The last of the places, or line 0 of the first file where there is none.
fn last_of(places: &[Line]) -> Line
    ensures { result ≡ or_no_place (slice_get places.now (length places.now - 1)) }
{
    match places.last() {
        Some(place) => *place,
        None => Line { file: 0, line: 0 },
    }
}

/// The place of the item with this number; where there is none, that of the last item.
fn stored_place(places: &[Line], item: Option<usize>) -> Line
    ensures { result ≡ stored_place places.now item }
{
    let Some(item) = item else {
        return last_of(places);
    };
    match places.get(item) {
        Some(place) => *place,
        None => last_of(places),
    }
}

/// The name of the file with this number, or an empty one where there is none.
fn name_of(alloc: Global, files: &[String], file: u32) -> Result<Name, AllocError>
    ensures { IfOk result (λ name. name ≡ slice_index_or (map string_bytes files.now) file []) }
{
    match files.get(file as usize) {
        Some(name) => Name::copied(alloc, name.as_str()),
        None => Name::of_bytes(alloc, b""),
    }
}

/// A line of one of these files, with the file's name.
fn named(alloc: Global, files: &[String], place: Line) -> Result<Place, AllocError>
    ensures { IfOk result (λ p. p ≡ named (map string_bytes files.now) place) }
{
    let file = name_of(alloc, files, place.file)?;
    let line = u64::from(place.line);
    Ok(Place { file, line })
}

impl<'s, 'r> Origin<'s, 'r> {
    ghost use Rattle.std.specs.Prelude.{◌≡◌, IfOk};
    ghost use Rattle.sl_ast.specs.Views.{indexes_of, items_of};
    ghost use Rattle.sl_tool_stages.specs.ItemLines.{files_in, lines_in, place_of_line};
    ghost use Rattle.sl_tool_stages.specs.OriginView.{origin_view};
    ghost use Rattle.sl_tool_stages.specs.Places.{indexes_in, place_in};

    /// The place of the item with this index, as the tree has it: that of its first token, or its
    /// number. Where none is given, it is the place of the text's end.
    pub fn place_of(&self, alloc: Global, index: Option<usize>) -> Result<Place, AllocError>
        ensures { IfOk result (λ place. place ≡ place_in (origin_view self.now) index) }
    {
        match self {
            Origin::InText(tokens) => tokens.place_of(alloc, index),
            Origin::Stored(stored) => {
                let place = stored_place(stored.places.as_slice(), index);
                named(alloc, stored.files.as_slice(), place)
            }
        }
    }

    /// The lines of the items of the tree, a block's before those of the items inside it.
    pub fn lines(&self, alloc: Global, spec: &Spec<'_>) -> Result<Vec<Line>, AllocError>
        requires { indexes_of spec.now ≡ indexes_in (origin_view self.now) (items_of spec.now) }
        ensures { IfOk result (λ lines.
            lines.items ≡ lines_in (origin_view self.now) (items_of spec.now)) }
    {
        match self {
            Origin::InText(tokens) => {
                let text = &tokens.source.expanded;
                item_places(alloc, text, tokens.tokens.as_slice(), spec)
            }
            Origin::Stored(stored) => stored.places.as_slice().to_vec(alloc),
        }
    }

    /// The place that a line of one of the files is. Where none is given, it is that of the text's
    /// end.
    pub fn place_of_line(&self, alloc: Global, line: Option<Line>) -> Result<Place, AllocError>
        ensures { IfOk result (λ place. place ≡ place_of_line (origin_view self.now) line) }
    {
        let Some(line) = line else {
            return self.place_of(alloc, None);
        };
        match self {
            Origin::InText(tokens) => {
                named(alloc, tokens.source.expanded.files.as_slice(), line)
            }
            Origin::Stored(stored) => named(alloc, stored.files.as_slice(), line),
        }
    }
}
