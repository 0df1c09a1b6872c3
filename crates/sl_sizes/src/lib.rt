//! The sizes of the variables of a section, inferred from equations between them.
#![tactic(auto)]

mod inference;
mod nodes;

pub use inference::infer;
use sl_word::Size;
use thiserror::Error;

/// What a section says of the sizes of its variables, in bytes. A variable is named by its number.
#[derive(Clone, Copy, Debug, PartialEq, Eq)]
pub enum Equation {
    /// The variable has this size.
    Is(u32, Size),
    /// The two variables have one size.
    Equal(u32, u32),
    /// The size of the first variable is that of the second minus the number.
    Less(u32, u32, u8),
}

/// Why a section's variables have no inferred sizes.
#[derive(Clone, Copy, Debug, Drop, PartialEq, Eq, Error)]
pub enum SizeError {
    /// No assignment of sizes from 1 to 16 meets all equations. The index is that of the first equation
    /// that none meets together with all before it.
    #[error("Clash")]
    Clash(usize),
    /// More than one assignment of sizes from 1 to 16 meets all equations. This is the least variable
    /// that has different sizes in two of them.
    #[error("Unfixed")]
    Unfixed(u32),
    /// Memory ran out, whatever the equations say.
    #[error("NoMemory")]
    NoMemory,
}
