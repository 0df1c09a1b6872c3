//! What names stand for in a constructor, and what fields give at a place; the names of patterns
//! with their places, the look-ups of bare fields, and the lengths of patterns.
#![tactic(auto)]

mod blocks;
mod extents;
mod fields;
mod joined;
mod kinds;
mod leaves;
mod looks;
mod masks;
mod pattern_leaves;
mod patterns;
mod steps;
mod whole;

pub use blocks::{BlockLeaves, are_plain, leaves_among, leaves_of, whole_among, whole_anew};
pub use extents::{Extent, again, extent_of, greater, is_same, sum};
pub use fields::{given, is_always_shown, number_at, number_of, own, register_at, shown, token_of};
pub use joined::{JoinedLeaves, bare, first_in, place_of};
pub use kinds::{context_field, kind_of, operand_named};
pub use leaves::Leaf;
pub use looks::Look;
pub use masks::{greatest, mask_in};
pub use pattern_leaves::PatternLeaves;
pub use patterns::{means_table, slot_number};
pub use steps::add_step;
pub use whole::Whole;
