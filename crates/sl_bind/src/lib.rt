//! From the tree of a specification to its tables and the sizes of its sections, or to the first
//! fault.
#![tactic(auto)]

mod bound;
mod fault;
mod indexes;
mod items;
mod laws;
mod sections;
mod stop;

pub use bound::{BindError, Bound, bind};
pub use fault::BindFault;
pub use indexes::first_token;
pub use laws::{some_verdict, taken_are_in_order, verdict_is_one};
