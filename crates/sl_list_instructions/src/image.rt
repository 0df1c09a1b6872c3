//! Images.

use std::marker::Model;

/// Bytes that lie in memory one after another, and how they are decoded.
#[derive(Drop)]
pub struct Image {
    pub bytes: Vec<u8>,
    /// The address of the first byte.
    pub base: u64,
    /// The context where no commit counts.
    pub start: u64,
}

impl Model for Image {
    ghost use Rattle.sl_list_instructions.specs.Listing as spec;

    ghost Value = { spec.Image };

    ghost view = { λ i. record { bytes = i.bytes.items; base = i.base; start = i.start } };
}
