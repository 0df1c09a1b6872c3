//! Lists of tokens that share their parts.

/// A list of tokens among those of a `Lists`, by its number; the empty list has none.
#[derive(Clone, Copy, Debug, PartialEq, Eq)]
pub struct TokenList(pub(crate) Option<usize>);

/// A list of one token, by the token's number, or two earlier lists behind one another.
#[derive(Clone, Copy, Debug, PartialEq, Eq)]
pub enum Node {
    One(u32),
    Joined(usize, usize),
}
