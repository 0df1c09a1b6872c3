//! Sizes of the variables of a section: the equations between them, and what is asked of them.
#![tactic(auto)]

mod class;
mod exports;
mod fits;
mod known;
mod put;
mod sections;
mod terms;
mod uses;

pub use exports::{ExportKind, export_kind, exported_size};
pub use fits::section_fits;
pub use known::KnownSizes;
pub use sections::{equations, sizes_of};
pub use uses::{are_targets, assigned, each_used_passes};
