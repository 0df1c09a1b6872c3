//! Where one of several sets of points is the choice, as cubes.
#![tactic(auto)]

mod choices;
mod left;

pub use choices::region_of_choice;
