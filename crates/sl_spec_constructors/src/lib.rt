//! Constructors: all rules by which one is judged, and what each adds to the tables.
#![tactic(auto)]

mod constraints;
mod constructors;
mod displays;
mod facts;
mod laws;
mod made;
mod operands;
mod patterns;
mod whole_text;

pub use constraints::constraint_value;
pub use constructors::define_constructor;
pub use displays::{blanks, is_blank, is_literal};
pub use laws::tables_stand_in_order;
pub use made::MadeOfBlocks;
pub use whole_text::{all_tables, table_name};
