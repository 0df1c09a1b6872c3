//! Texts of specifications, packed: [`pack_text`] gives the packed file of a specification that was
//! read from a text, and [`item_places`] the places of its items alone. `specs/PackedForm.antt` says
//! which files, places and items the file has.
#![tactic(auto)]

mod firsts;
mod lines;
mod text;

pub use text::{item_places, pack_text};

#[cfg(test)]
mod tests;
