//! The file and the line of a token, as the lines of facts name other places of a text.
#![tactic(auto)]

ghost use Rattle.std.specs.Prelude.{[], ◌≡◌, ◌++◌, OnOk, slice_index_or};
ghost use Rattle.sl_explain_places.specs.TokenPlaces.{byte_place, token_place};
ghost use Rattle.sl_lex.specs.Views.{views};
ghost use Rattle.sl_preproc.specs.Expanded.{seen};
ghost use Rattle.sl_preproc.specs.Works.{names_of};

use sl_explain_lines::push_line;
use sl_lex::Tok;
use sl_preproc::Expanded;
use std::alloc::AllocError;

/// The name of the file with this number, or an empty one where there is none.
fn name_of(files: &[String], file: u32) -> &[u8]
    ensures { result.now ≡ slice_index_or (names_of files.now) file [] }
{
    match files.get(file as usize) {
        Some(name) => name.as_bytes(),
        None => b"",
    }
}

/// Appends the file and the line of a byte of a text.
#[tactic(auto, unfolding(crate::specs::TokenPlaces::byte_place))]
fn push_byte_place(out: &mut Vec<u8>, text: &Expanded, byte: usize) -> Result<(), AllocError>
    ensures { OnOk result (out.new.items ≡ out.old.items ++ byte_place (seen text.now) byte) }
{
    let bytes = text.text.as_slice();
    let place = text.place_of(byte.min(bytes.len()));
    let file = name_of(text.files.as_slice(), place.file);
    push_line(out, file, u64::from(place.line))
}

/// Appends those of the token of this index.
pub fn push_token_place(
    out: &mut Vec<u8>,
    text: &Expanded,
    tokens: &[Tok<'_>],
    index: usize,
) -> Result<(), AllocError>
    ensures { OnOk result (out.new.items
        ≡ out.old.items ++ token_place (seen text.now) (views tokens.now) index) }
{
    let byte = match tokens.get(index) {
        Some(token) => token.from,
        None => 0,
    };
    push_byte_place(out, text, byte)
}
