//! What is wrong with a text, and at which item.

use std::alloc::AllocError;

/// What is wrong with a text.
#[derive(Clone, Copy, Debug, PartialEq, Eq)]
pub enum BindFault {
    /// A rule of the language is broken, by its number.
    Rule(u8),
    /// No sizes fit a section.
    SizeClash,
    /// Several sizes fit a section.
    SizeUnfixed,
}

/// What is wrong, with the number of the item where it is, none for the text's end; or want of
/// memory.
#[derive(Clone, Copy, Debug, PartialEq, Eq)]
pub enum Refusal {
    At(BindFault, Option<u32>),
    NoMemory,
}

impl From<AllocError> for Refusal {
    ghost use Rattle.std.specs.Prelude.{◌≡◌};
    ghost use Rattle.sl_bind.specs.declared.fault.Refusal.{Refusal};

    ghost from_gives = { λ _ refusal. refusal ≡ Refusal.NoMemory };

    fn from(_: AllocError) -> Self {
        Refusal::NoMemory
    }
}
