//! The text of an edited listing: read back line by line, and assembled where it was edited.
#![tactic(auto)]

mod encoding;
mod faults;
mod front;
pub mod laws;
mod lines;
mod listing;
mod patching;
mod reading;
#[cfg(test)]
mod tests;

pub use encoding::Encoder;
pub use faults::{LineError, LineFault};
pub use front::{Front, read_front};
pub use lines::patch_lines;
pub use listing::{EditedListing, ShownLine};
pub use patching::Patcher;
pub use reading::read_listing;
