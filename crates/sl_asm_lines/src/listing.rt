//! A listing that may have been edited.

ghost use Rattle.std.specs.Prelude.{◌≤◌};

/// A line of a listing, but for its bytes.
#[derive(Clone, Copy)]
pub struct ShownLine<'f> {
    /// How many bytes it shows.
    pub count: u8,
    pub text: &'f [u8],
    ghost some: { 1 ≤ count },
}

/// A listing that was read, and that may have been edited.
#[derive(Drop)]
pub struct EditedListing<'f> {
    /// The address of the first line, or 0 where there is none.
    pub base: u64,
    /// The bytes of all lines, one after another.
    pub image: Vec<u8>,
    pub lines: Vec<ShownLine<'f>>,
}
