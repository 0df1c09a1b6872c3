//! An image that is listed with operations.

ghost use Rattle.std.specs.Prelude.{◌+◌, ◌^◌, ◌≤◌, length};

use crate::translator::Translator;
use sl_decode::Walk;
use sl_list_instructions::Image;
use std::alloc::Global;

/// An image that is listed with the operations of its instructions.
#[derive(Drop)]
pub struct PcodeListing<'l, 't, 'a> {
    pub alloc: Global,
    pub translator: &'l Translator<'t, 'a>,
    pub image: &'l Image,
    ghost fits: { image.now.base + length image.now.bytes ≤ 2 ^ 64 },
}

/// Buffers of a listing: a decoded tree, and its text.
#[derive(Drop)]
pub struct PcodeBuffers {
    pub walk: Walk,
    pub text: Vec<u8>,
}

impl PcodeBuffers {
    pub fn new(alloc: Global) -> Self {
        PcodeBuffers {
            walk: Walk::new(alloc),
            text: Vec::new(alloc),
        }
    }
}
