//! `pcode`: the listing of an image with the operations of each instruction.
#![tactic(auto)]

pub mod laws;
mod lines;
mod lister;
mod listing;
mod names;
mod shown;
mod translator;
pub mod whole_laws;

pub use listing::list_pcode;
pub use sl_list_instructions::ListError;
