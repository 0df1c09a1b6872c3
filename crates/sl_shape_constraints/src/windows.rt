//! The bytes that constraints look at.

ghost use Rattle.sl_shape_constraints.specs.Codes.{HasBitInByte};
ghost use Rattle.sl_shape_constraints.specs.Views.{constraint_of};
ghost use Rattle.sl_shape_constraints.specs.Windows.{Constrains, IsEnd};

use crate::bits::Bits;
use crate::codes::are_all;
use crate::constraint::Constraint;
use crate::homes::Home;
use sl_word::Endian;

/// The bytes of a token up to the last one that has one of the bits; 0 where none has.
fn bytes_with(bits: &Bits) -> u32
    ensures { IsEnd (HasBitInByte bits.now) result }
{
    match bits.home {
        Home::Context => 0,
        Home::Token(order, bytes) => {
            if bytes <= bits.low / 8 {
                return 0;
            }
            match order {
                Endian::Little => (bits.high / 8).min(bytes - 1) + 1,
                Endian::Big => bytes - bits.low / 8,
            }
        }
    }
}

impl Constraint<'_, '_> {
    /// The bytes of the token up to the last one that the constraint looks at; 0 where it looks at
    /// none.
    pub fn window(&self) -> u32
        ensures { IsEnd (Constrains (constraint_of self.now)) result }
    {
        if are_all(&self.codes(), self.width()) {
            return 0;
        }
        bytes_with(&self.bits())
    }
}
