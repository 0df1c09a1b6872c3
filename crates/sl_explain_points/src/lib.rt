//! The fields that the patterns of two constructors constrain, with their values at points.
//!
//! A pattern is read by its tokens: where the token of a field begins is known up to a `;` that is
//! in brackets, or after a table or `...`. Fields past it are left out.
#![tactic(auto)]

mod laws;
mod readings;
mod sites;
mod told;
mod values;

pub use laws::fields_are_shown;
pub use readings::Reading;
pub use sites::{Site, sites_of_both};
pub use told::push_fields;
