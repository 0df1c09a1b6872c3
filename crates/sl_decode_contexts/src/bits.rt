//! Bits of contexts.

ghost use Rattle.std.specs.Prelude.{◌≡◌};
ghost use Rattle.sl_decode_contexts.specs.AtAddress.{put, without};

/// The bits under the mask from `new`, the others from `old`.
pub(crate) fn put_bits(old: u64, mask: u64, new: u64) -> u64
    ensures { result ≡ put old mask new }
{
    old ^ (old ^ new) & mask
}

/// The bits of `bits` that `taken` lacks.
pub(crate) fn less(bits: u64, taken: u64) -> u64
    ensures { result ≡ without bits taken }
{
    bits ^ bits & taken
}
