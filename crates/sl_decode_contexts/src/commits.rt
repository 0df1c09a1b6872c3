//! Commits of `globalset`.

/// Context bits that a `globalset` gives to an address, and to those above it where they flow.
#[derive(Clone, Copy, Debug, PartialEq, Eq)]
pub struct Commit {
    pub address: u64,
    /// The bits that it gives. Bits of `value` outside of them mean nothing.
    pub mask: u64,
    pub value: u64,
    /// False for a `noflow` field: then it gives them to its address alone.
    pub flows: bool,
}
