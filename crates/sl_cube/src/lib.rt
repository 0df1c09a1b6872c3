//! Points of instruction input, and cubes: the sets of all points that have some bits as given.
#![tactic(auto)]

ghost use Rattle.std.specs.Prelude.{◌≡◌, ◌↔◌, IsTrue, MatchOption, IfSome, bit_and};

mod halves;
mod masks;
mod outside;
mod tally;

pub use halves::{highest, parts, split};
pub use outside::{is_covered, is_in_some, meeting, point_outside};
pub use tally::Tally;

/// What an instruction is decoded from: sixteen bytes of input, the first byte the highest of the
/// number, and the 64 bits of the context register.
#[derive(Clone, Copy, Debug, PartialEq, Eq)]
pub struct Point {
    pub bytes: u128,
    pub context: u64,
}

/// The set of the points whose bits under the masks are those of the values. A mask of zeros fixes no
/// bit, and its cube has all points. No cube is empty.
#[derive(Clone, Copy, Debug, PartialEq, Eq)]
pub struct Cube {
    pub mask: u128,
    pub value: u128,
    pub ctx_mask: u64,
    pub ctx_value: u64,
    pub ghost within: { bit_and value mask ≡ value },
    pub ghost ctx_within: { bit_and ctx_value ctx_mask ≡ ctx_value },
}

impl Cube {
    ghost use Rattle.sl_cube.specs.Points.{IsIn};
    ghost use Rattle.sl_cube.specs.Cubes.{Includes, DoMeet, AreApart, IsMeet, FixesBoth, IsHull, IsLeast};

    /// Whether the point is in the cube.
    pub fn has(&self, point: &Point) -> bool
        ensures { IsTrue result ↔ IsIn point.now self.now }
    {
        let bytes = masks::agrees(self.mask, self.value, point.bytes);
        let context = masks::agrees(
            self.ctx_mask.into(),
            self.ctx_value.into(),
            point.context.into(),
        );
        bytes && context
    }

    /// Whether some point is in both cubes.
    pub fn meets(&self, other: &Cube) -> bool
        ensures { IsTrue result ↔ DoMeet self.now other.now }
    {
        let shared = self.mask & other.mask;
        if self.value & shared != other.value & shared {
            return false;
        }
        let ctx_shared = self.ctx_mask & other.ctx_mask;
        self.ctx_value & ctx_shared == other.ctx_value & ctx_shared
    }

    /// The set of the points that are in both cubes, which is a cube where there is one.
    pub fn meet(&self, other: &Cube) -> Option<Cube>
        ensures points { MatchOption result (AreApart self.now other.now) (IsMeet self.now other.now) }
        ensures masks { IfSome result (FixesBoth self.now other.now) }
    {
        let shared = self.mask & other.mask;
        if self.value & shared != other.value & shared {
            return None;
        }
        let ctx_shared = self.ctx_mask & other.ctx_mask;
        if self.ctx_value & ctx_shared != other.ctx_value & ctx_shared {
            return None;
        }
        Some(self.joined(other))
    }

    /// The meet of two cubes that agree on each bit that both fix.
    fn joined(&self, other: &Cube) -> Cube
        requires bytes { bit_and self.now.value (bit_and self.now.mask other.now.mask)
            ≡ bit_and other.now.value (bit_and self.now.mask other.now.mask) }
        requires context { bit_and self.now.ctx_value (bit_and self.now.ctx_mask other.now.ctx_mask)
            ≡ bit_and other.now.ctx_value (bit_and self.now.ctx_mask other.now.ctx_mask) }
        ensures points { IsMeet self.now other.now result }
        ensures masks { FixesBoth self.now other.now result }
    {
        Cube {
            mask: self.mask | other.mask,
            value: self.value | other.value,
            ctx_mask: self.ctx_mask | other.ctx_mask,
            ctx_value: self.ctx_value | other.ctx_value,
        }
    }

    /// Whether each point of the other cube is in this one.
    pub fn contains(&self, other: &Cube) -> bool
        ensures { IsTrue result ↔ Includes self.now other.now }
    {
        let bytes = masks::includes(self.mask, self.value, other.mask, other.value);
        let context = masks::includes(
            self.ctx_mask.into(),
            self.ctx_value.into(),
            other.ctx_mask.into(),
            other.ctx_value.into(),
        );
        bytes && context
    }

    /// The hull of the two cubes: the least cube that has all points of both.
    pub fn hull2(&self, other: &Cube) -> Cube
        ensures { IsHull self.now other.now result }
    {
        let ones = self.value & other.value;
        let zeros = (self.mask ^ self.value) & (other.mask ^ other.value);
        let ctx_ones = self.ctx_value & other.ctx_value;
        let ctx_zeros = (self.ctx_mask ^ self.ctx_value) & (other.ctx_mask ^ other.ctx_value);
        Cube {
            mask: ones | zeros,
            value: ones,
            ctx_mask: ctx_ones | ctx_zeros,
            ctx_value: ctx_ones,
        }
    }

    /// The least point of the cube, by its bytes as a number and then by its context.
    pub fn least(&self) -> Point
        ensures { IsLeast self.now result }
    {
        Point {
            bytes: self.value,
            context: self.ctx_value,
        }
    }
}
