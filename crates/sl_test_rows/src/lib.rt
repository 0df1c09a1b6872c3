//! What a run of the program can't show of a call of the tool: the runner's count, reads and writes that fail one by
//! one, and a call without any word. What else it writes is tried by the cases of `tests/`.
#![tactic(auto)]

#[cfg(test)]
mod tests;
