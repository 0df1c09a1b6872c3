//! Types whose values are single bytes.

ghost use Rattle.std.specs.Prelude.{◌≡◌, ℕ, List};

/// A type each of whose values is one byte, which counts it in a table.
pub trait Coded: Copy + 'static {
    ghost table: { List Self };

    ghost code: { Self → ℕ };

    /// The values in the order of their bytes.
    fn table() -> &'static [Self]
        ensures { result.now ≡ table };

    /// The value's byte.
    fn code(&self) -> u8
        ensures { result ≡ code self.now };
}
