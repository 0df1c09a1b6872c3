//! Whether each table is settled: at each point that some of its constructors have, one of them is
//! the most specific. And whether a specification is sound: no pattern has a fault, and each table
//! is settled.
#![tactic(auto)]

mod grouping;
mod judging;
mod soundness;
mod table_sets;

pub use judging::{Checked, ConflictError, check};
pub use sl_cube_sets::{Apart, CubeSet};
pub use sl_shape::ShapeError;
pub use soundness::{Unsound, judge};
pub use table_sets::TableSets;
