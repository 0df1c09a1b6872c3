//! Packed specifications: a specification with the files that it includes, as one file. [`pack`]
//! writes it, and [`unpack`] reads exactly what `pack` writes. The format is `sl_store_format`'s.
#![tactic(auto)]

pub mod laws;
mod opening;

pub use opening::{UnpackError, unpack};
pub use sl_store_write::{Packed, pack};

#[cfg(test)]
mod tests;
