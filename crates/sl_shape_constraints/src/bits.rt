//! The bits of a field, and where they stand in a point.

ghost use Rattle.sl_shape_constraints.specs.Rooms.{Fits};

use crate::homes::Home;

/// The bits from `low` to `high` of the context or of a token's integer. Bits past the token's end
/// are 0.
#[derive(Clone, Copy, Debug)]
pub struct Bits {
    pub home: Home,
    pub low: u32,
    pub high: u32,
    pub ghost fits: { Fits home low high },
}
