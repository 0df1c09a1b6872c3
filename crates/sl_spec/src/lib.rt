//! The tables of a specification, the values of its fields, and its constructors without `with`
//! blocks.
#![tactic(auto)]

mod attachments;
mod by_block;
mod constructors;
mod definitions;
mod fields;
mod ids;
mod listed;
mod named;
mod tables;
mod unfolded;

pub use attachments::Attachments;
pub use by_block::ByBlock;
pub use constructors::{Ctor, Macro, Means, Operand, Table, UserOp};
pub use definitions::{Attached, BitRange, Entries, Field, Register, Space, SpaceKind, Token};
pub use fields::field_value;
pub use ids::{CtorId, FieldId, RegId, TableId};
pub use listed::Listed;
pub use named::{Entry, Named};
pub use tables::Tables;
pub use unfolded::{Around, Unfolded, add_unfolded, unfolded_constructors};
