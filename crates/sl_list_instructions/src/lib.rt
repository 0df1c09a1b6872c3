//! The listing of an image, each line handed out before the next instruction is decoded.
#![tactic(auto)]

mod disassembly;
mod image;
pub mod image_laws;
mod instructions;
pub mod laws;
mod lines;
mod listing;
mod listings;
mod specified;
mod writing;

pub use disassembly::{Disassembly, decoder_of};
pub use image::Image;
pub use instructions::{
    Decoder, ListBuffers, Listing, WINDOW, count_of, mark_of, put_line, window_at,
};
pub use lines::{MOST_BYTES, push_address, push_hex, push_listed};
pub use listing::list_image;
pub use listings::{ListError, Lister, list_all};
pub use specified::Specified;
pub use writing::write_all;
