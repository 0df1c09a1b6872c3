//! Laws above the definitions of the preprocessor and of `with` blocks, in the words of what they define: so that a
//! definition which is the program written again is held to what is meant. They stand in a crate of their own, since
//! nothing is proved from them.
#![tactic(auto)]

pub mod laws;
