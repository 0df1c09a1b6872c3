//! Laws: sections keep the rules where the tests of the rules hold of them, and instructions whose
//! trees keep the rules are translated by their operations.
#![tactic(auto)]

pub mod fitting_laws;
pub mod keeping_laws;
pub mod name_laws;
