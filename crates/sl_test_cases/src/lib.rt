//! Public calls of crates below the program by themselves, where a run of the program shows only a part of what they
//! give: each that takes memory is run on its happy path, with answers that were reckoned by hand. All else is tried by
//! the cases of `tests/`. They stand here, so that no crate has to be proved a second time for its tests.
#![tactic(auto)]

#[cfg(test)]
mod tests;
