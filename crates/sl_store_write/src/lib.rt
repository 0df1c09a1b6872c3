//! Packed specifications, written: [`pack`] gives the bytes of a tree with the places of its items and the names
//! of its files, and [`pack_parts`] those of the same parts where they are lent. `Put` has the bytes of each tree,
//! rule by rule, as `sl_store_format` defines them.
#![tactic(auto)]

mod constructors;
mod definitions;
mod expressions;
mod items;
mod packed;
mod patterns;
mod places;
mod put;
mod statements;

pub use packed::{MARK, Packed, pack, pack_parts};
