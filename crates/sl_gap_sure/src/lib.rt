//! The law that after `sure` no decode ends for want of a constructor.
#![tactic(auto)]

pub mod laws;
