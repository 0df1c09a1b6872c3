//! A specification that is kept open: what stands at an address is asked again and again.
//!
//! [`Reader`] decodes the instructions of a specification and builds their operations. [`Session`]
//! has what one question leaves to the next: the context where no commit counts, the commits so
//! far, and buffers. [`Session::decode_at`] answers with what `list` prints at the address after
//! the same commits, and [`Session::translate_at`] with the operations of `pcode` beside it.
#![tactic(auto)]

mod answer;
mod buffers;
pub mod laws;
mod lines;
mod numbers;
mod reader;
mod session;

pub use answer::{Answer, Translated};
pub use buffers::Buffers;
pub use numbers::{number_of_code, number_of_place, numbers_of};
pub use reader::Reader;
pub use session::Session;
