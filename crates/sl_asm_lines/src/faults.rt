//! Faults of an edited listing.

/// Why a line isn't assembled.
#[derive(Clone, Copy, Debug, PartialEq, Eq)]
pub enum LineFault {
    /// It isn't of the form of a listing's lines.
    BadLine,
    /// Its address isn't that after the line before it, or its bytes lie past the last address.
    BadAddress,
    /// It was edited, and there is no encoding of its text with as many bytes, at its address from
    /// the context there.
    NoEncoding,
    /// All lines have bytes, and in the listing of them all this is the first line that isn't as in
    /// the text: bytes of a later line, or a commit of a later one, change what it is.
    Undecided,
}

/// The line that is at fault, counted from 1, and why.
#[derive(Clone, Copy, Debug, PartialEq, Eq)]
pub struct LineError {
    pub number: usize,
    pub fault: LineFault,
}
