//! Words of 1 to 16 bytes, the operations of p-code on them, and the bytes of a machine.
#![tactic(auto)]

mod arithmetic;
mod layout;
mod narrow;
mod operation;
mod page;
mod pages;
mod runs;
mod signed;
mod space;
mod state;
mod word;

pub use narrow::{Narrow, eight_at};
pub use operation::{DivideByZero, Op1, Op2, apply1, apply2};
pub use runs::overwrite;
pub use state::{Change, State};
pub use word::{AddressSize, Endian, Size, SpaceId, UserId, Word};
