//! Which constructors are examined for holes: those with a table operand that is near enough, and
//! without an action on the context.
#![tactic(auto)]

mod first;
mod quiet;

pub use first::{FirstOperand, first_operand};
pub use quiet::sets_some;
