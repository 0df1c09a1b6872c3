//! Laws of the flat sections of a text that keeps the rules: they keep what instructions count on.
#![tactic(auto)]

pub mod build_laws;
pub mod name_laws;
pub mod size_laws;
pub mod sound_laws;
pub mod use_laws;
