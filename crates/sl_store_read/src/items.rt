//! Items with their places.

ghost use Rattle.std.specs.Prelude.{◌≡◌};
ghost use Rattle.sl_ast.specs.Views.{kind_of};
ghost use Rattle.sl_store_format.specs.Forms.{item_forms};
ghost use Rattle.sl_store_format.specs.Items as reader;
ghost use Rattle.sl_store_bytes.specs.Lists.{list_of};
ghost use Rattle.sl_store_bytes.specs.Reads.{Plain, Reads};
ghost use Rattle.sl_store_bytes.specs.Tables.{coded_if};
ghost use Rattle.sl_store_read.specs.Placed.{ReadsInner, ReadsInside, ReadsItem, ReadsItems};

use crate::constructors::{constructor_here, head_here, macro_here};
use crate::definitions::{definition_here, member_here, names_here};
use crate::parts::list;
use sl_ast::constructors::Inner;
use sl_ast::definitions::{AttachKind, Member};
use sl_ast::items::{Item, ItemKind};
use sl_preproc::Place;
use sl_store_bytes::{Bytes, Stop};
use sl_store_format::forms::ItemForm;
use sl_store_phrases::taken;
use std::alloc::Global;

/// The greatest number of a line.
const MOST_LINES: u64 = 4_294_967_295;

/// How many blocks may be inside one another in a block.
const DEEPEST: u64 = 15;

/// Items with their places, in text order, a block's before those inside it. The index of an item's
/// first token counts the places before its own.
#[derive(Drop)]
pub struct Placed<'a> {
    pub items: Vec<Item<'a>>,
    pub places: Vec<Place>,
}

/// A line of one of so many files.
#[tactic(auto, unfolding(sl_store_format::specs::Items::place_here))]
fn place_here(bytes: &mut Bytes<'_>, files: u32) -> Result<Place, Stop>
    ensures { Reads Plain (reader.place_here files bytes.old) result bytes.new }
{
    let file = bytes.number(0, u64::from(files).saturating_sub(1))?;
    let line = bytes.number(0, MOST_LINES)?;
    Ok(Place {
        file: file as u32,
        line: line as u32,
    })
}

/// Whether the item may be inside a block, in which blocks are inside one another at most `depth`
/// times.
fn inner_fits(depth: u64, form: ItemForm) -> bool
    ensures { result ≡ reader.inner_fits depth form }
{
    match form {
        ItemForm::Constructor => true,
        ItemForm::With => depth >= 1,
        _ => false,
    }
}

/// The form of what is inside a block.
#[tactic(auto, unfolding(sl_store_bytes::specs::Reader::choose))]
fn inner_form(bytes: &mut Bytes<'_>, depth: u64) -> Result<ItemForm, Stop>
    ensures { Reads Plain (coded_if (reader.inner_fits depth) item_forms bytes.old) result bytes.new }
{
    match bytes.peek::<ItemForm>() {
        Some(form) => taken(bytes, form, inner_fits(depth, form)),
        None => Err(bytes.refuse()),
    }
}

/// A constructor or a block inside a block, in which blocks are inside one another at most `depth`
/// times.
#[cycle(inner)]
fn inner_here<'a>(
    alloc: Global,
    bytes: &mut Bytes<'a>,
    files: u32,
    depth: u64,
    places: &mut Vec<Place>,
) -> Result<Inner<'a>, Stop>
    ensures { ReadsInner (reader.inner_here files depth bytes.old) places.old.items result
        places.new.items bytes.new }
{
    let first = places.len();
    let place = place_here(bytes, files)?;
    places.push(place)?;
    match inner_form(bytes, depth)? {
        ItemForm::With => {
            let head = head_here(alloc, bytes)?;
            let inside = inside_here(alloc, bytes, files, depth - 1, places)?;
            Ok(Inner::With(first, head, inside))
        }
        _ => {
            let constructor = constructor_here(alloc, bytes)?;
            Ok(Inner::Constructor(first, constructor))
        }
    }
}

/// What is inside a block, after its head.
#[cycle(inner)]
#[tactic(auto, unfolding(sl_store_bytes::specs::Lists::list_of))]
fn inside_here<'a>(
    alloc: Global,
    bytes: &mut Bytes<'a>,
    files: u32,
    depth: u64,
    places: &mut Vec<Place>,
) -> Result<Vec<Inner<'a>>, Stop>
    ensures { ReadsInside (list_of (reader.inner_here files depth) bytes.old) places.old.items
        result places.new.items bytes.new }
{
    let count = bytes.number(0, u64::MAX)?;
    let mut found = Vec::new(alloc);
    'rounds: for _round in 0..count {
        found.push(inner_here(alloc, bytes, files, depth, places)?)?;
    }
    Ok(found)
}

/// An attached list, after its byte.
#[tactic(auto, unfolding(sl_store_format::specs::Items::attached_list))]
fn attached_list<'a>(alloc: Global, bytes: &mut Bytes<'a>) -> Result<ItemKind<'a>, Stop>
    ensures { Reads kind_of (reader.attached_list bytes.old) result bytes.new }
{
    let kind = bytes.coded::<AttachKind>()?;
    let names = names_here(alloc, bytes)?;
    let members: Vec<Member<'a>> = list(alloc, bytes)?;
    Ok(ItemKind::AttachList(kind, names, members))
}

/// An attached single member, after its byte.
#[tactic(auto, unfolding(sl_store_format::specs::Items::attached_one))]
fn attached_one<'a>(alloc: Global, bytes: &mut Bytes<'a>) -> Result<ItemKind<'a>, Stop>
    ensures { Reads kind_of (reader.attached_one bytes.old) result bytes.new }
{
    let kind = bytes.coded::<AttachKind>()?;
    let names = names_here(alloc, bytes)?;
    let member = member_here(bytes)?;
    Ok(ItemKind::AttachOne(kind, names, member))
}

/// An item but a block, after its byte.
fn plain_by<'a>(alloc: Global, bytes: &mut Bytes<'a>, form: ItemForm) -> Result<ItemKind<'a>, Stop>
    ensures { Reads kind_of (reader.plain_by form bytes.old) result bytes.new }
{
    match form {
        ItemForm::Define => {
            let definition = definition_here(alloc, bytes)?;
            Ok(ItemKind::Define(definition))
        }
        ItemForm::AttachList => attached_list(alloc, bytes),
        ItemForm::AttachOne => attached_one(alloc, bytes),
        ItemForm::Macro => {
            let defined = macro_here(alloc, bytes)?;
            Ok(ItemKind::Macro(defined))
        }
        _ => {
            let constructor = constructor_here(alloc, bytes)?;
            Ok(ItemKind::Constructor(constructor))
        }
    }
}

/// An item with its place and the places inside it.
#[tactic(auto, unfolding(sl_store_format::specs::Items::placed_here))]
fn item_here<'a>(
    alloc: Global,
    bytes: &mut Bytes<'a>,
    files: u32,
    places: &mut Vec<Place>,
) -> Result<Item<'a>, Stop>
    ensures { ReadsItem (reader.placed_here files bytes.old) places.old.items result
        places.new.items bytes.new }
{
    let first = places.len();
    let place = place_here(bytes, files)?;
    places.push(place)?;
    match bytes.coded::<ItemForm>()? {
        ItemForm::With => {
            let head = head_here(alloc, bytes)?;
            let inside = inside_here(alloc, bytes, files, DEEPEST, places)?;
            Ok(Item {
                first,
                kind: ItemKind::With(head, inside),
            })
        }
        form => {
            let kind = plain_by(alloc, bytes, form)?;
            Ok(Item { first, kind })
        }
    }
}

/// How many items there may be: none where there is no file.
fn most_items(files: u32) -> u64
    ensures { result ≡ reader.most_items files }
{
    if files == 0 { 0 } else { u64::MAX }
}

/// All items, with places in so many files.
#[tactic(auto, unfolding(sl_store_format::specs::Items::items_here))]
pub fn all_items<'a>(alloc: Global, bytes: &mut Bytes<'a>, files: u32) -> Result<Placed<'a>, Stop>
    ensures { ReadsItems (reader.items_here files bytes.old) result bytes.new }
{
    let count = bytes.number(0, most_items(files))?;
    let mut items = Vec::new(alloc);
    let mut places = Vec::new(alloc);
    'rounds: for _round in 0..count {
        items.push(item_here(alloc, bytes, files, &mut places)?)?;
    }
    Ok(Placed { items, places })
}
