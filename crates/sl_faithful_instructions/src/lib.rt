//! Laws: decoded instructions of specifications whose sections keep the rules are translated.
#![tactic(auto)]

pub mod laws;
