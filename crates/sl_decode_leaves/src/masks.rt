//! The bits of a field in the context.

ghost use Rattle.std.specs.Prelude.{◌≡◌, ◌+◌, ◌≤◌, ◌^◌};
ghost use Rattle.sl_decode_meaning.specs.Actions.{mask_of};

use sl_spec::Field;

/// The greatest number of `width` bits.
pub fn greatest(width: u8) -> u64
    requires some { 1 ≤ width }
    requires most { width ≤ 64 }
    ensures { result + 1 ≡ 2 ^ width }
{
    if width == 64 {
        u64::MAX
    } else {
        (1u64 << width) - 1
    }
}

/// The bits of a field in the context.
#[tactic(auto, using(crate::proofs::MaskLemmas::mask_is))]
pub fn mask_in(field: &Field) -> u64
    ensures { result ≡ mask_of field.now }
{
    greatest(field.width()) << field.low
}
