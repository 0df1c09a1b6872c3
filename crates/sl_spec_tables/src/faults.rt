//! What is told of a broken rule.

/// Where a rule over the whole text is broken.
#[derive(Clone, Copy, Debug, PartialEq, Eq)]
pub enum Place {
    /// At the item of this number among all items.
    Item(u32),
    /// At the text's end.
    End,
}

/// A broken rule over the whole text, by its number.
#[derive(Clone, Copy, Debug, PartialEq, Eq)]
pub struct LateFault {
    pub rule: u8,
    pub place: Place,
}
