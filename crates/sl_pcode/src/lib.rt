//! P-code: varnodes, operations, their text, and lists of operations that are well formed.
#![tactic(auto)]

mod code;
mod effect;
mod laws;
mod list;
mod operation;
mod print;
mod varnode;

pub use code::{Code, Kind};
pub use effect::Effect;
pub use laws::{lists_have_one_result, runs_are_steps};
pub use list::OpList;
pub use operation::Op;
pub use print::{Names, print_op};
pub use varnode::{Place2, Varnode};
