//! The packed file of a text.

ghost use Rattle.std.specs.Prelude.{◌≡◌, IfOk, map};
ghost use Rattle.sl_ast.specs.Validity.{Each};
ghost use Rattle.sl_ast.specs.Views.{indexes_of, items_of};
ghost use Rattle.sl_lex.specs.Views.{views};
ghost use Rattle.sl_preproc.specs.Expanded.{seen};
ghost use Rattle.sl_store_text.specs.Lines.{HasLine};
ghost use Rattle.sl_store_text.specs.PackedForm.{packed_form, place_of_first};
ghost use Rattle.sl_store_text.specs.Parsed.{IsParsed};
ghost use Rattle.sl_store_write.specs.Packs.{IsFileOf};

use crate::firsts::first_tokens;
use crate::lines::places_of;
use sl_ast::items::Spec;
use sl_lex::Tok;
use sl_preproc::{Expanded, Place};
use sl_store_write::pack_parts;
use std::alloc::{AllocError, Global};

/// The most files that a packed file can name. A text has fewer: each but the main one gives it a line.
const MOST_FILES: usize = 4_294_967_295;

/// The places of the items of a tree, a block's before those of the items inside it. `tokens` are
/// those of the expanded text. All are found in one pass over the text, where no item begins before
/// the one in front of it.
pub fn item_places(
    alloc: Global,
    text: &Expanded,
    tokens: &[Tok<'_>],
    spec: &Spec<'_>,
) -> Result<Vec<Place>, AllocError>
    ensures are { IfOk result (λ places. places.items
        ≡ map (place_of_first (seen text.now) (views tokens.now)) (indexes_of spec.now)) }
    ensures lines { IfOk result (λ places. Each HasLine places.items) }
{
    let firsts = first_tokens(alloc, spec)?;
    places_of(alloc, text, tokens, firsts.as_slice())
}

/// The packed file of the specification that an expanded text is: `tokens` are those of the text,
/// `spec` is the tree that they spell, with the index of each item's first token. The file has the
/// names of the text's files, the file and the line of each item's first token, and the items. May
/// run out of memory at any point.
pub fn pack_text(
    alloc: Global,
    text: &Expanded,
    tokens: &[Tok<'_>],
    spec: &Spec<'_>,
) -> Result<Vec<u8>, AllocError>
    ensures { IsParsed (seen text.now) (views tokens.now) spec.now → IfOk result (λ file.
        IsFileOf (packed_form (seen text.now) (views tokens.now) (items_of spec.now)) file.items) }
{
    let files = text.files.as_slice();
    if files.len() > MOST_FILES {
        return Err(AllocError);
    }
    let places = item_places(alloc, text, tokens, spec)?;
    pack_parts(alloc, files, places.as_slice(), spec.items.as_slice())
}
