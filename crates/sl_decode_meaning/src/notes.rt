//! What a `globalset` notes of the context before the operands are decoded.

/// The bits of a context field as they are when its `globalset` comes.
#[derive(Clone, Copy, Debug, PartialEq, Eq)]
pub struct Noted {
    /// The bits of the field.
    pub mask: u64,
    /// Their values; the other bits are 0.
    pub value: u64,
    /// False for a `noflow` field.
    pub flows: bool,
}
