//! What is surely so: it can't be that it isn't. Laws that something exists that nothing decides
//! are told so. Lemmas alone; no code.
#![tactic(auto)]
