//! Laws: how many parts flat sections have, and that the rules bound the nodes of decoded trees and
//! what their sections weigh.
#![tactic(auto)]

pub mod order_laws;
pub mod part_laws;
pub mod tree_laws;
