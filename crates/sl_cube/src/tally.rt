//! The bit at which a region of points is best split for the sake of some cubes: of those that fix
//! the fewest bits that the region leaves open, but at least one, the first tells the bits, and the
//! one that most of them fix is taken.

ghost use Rattle.std.specs.Prelude.{◌≡◌, ◌↔◌, IsTrue, None, MatchOption};
ghost use Rattle.sl_cube.specs.Search.{IsNoBit, FixesNoMore, IsHalved};
ghost use Rattle.sl_cube.specs.Tallies.{IsOpen, IsWeighed, AreWeighed, IsOpenIfSome, IsAmong};

use super::halves::{highest, parts};
use super::{Cube, Point};

/// A count has as many binary digits at most: more cubes than 2^28 are never counted.
const DIGITS: usize = 28;

const NO_BIT: Point = Point {
    bytes: 0,
    context: 0,
};

/// The open bits of the first of the shortest cubes so far, and how many of the shortest fix each
/// bit: `digits[k]` has the bits whose count has the binary digit k.
#[derive(Clone, Copy, Debug)]
pub struct Tally {
    pub shortest: Option<Point>,
    digits: [Point; 28],
}

/// Whether none of the bits is set.
fn has_no_bit(bits: &Point) -> bool
    ensures { IsTrue result ↔ IsNoBit bits.now }
{
    bits.bytes == 0 && bits.context == 0
}

/// How many bits are set.
fn count(bits: &Point) -> u32 {
    bits.bytes
        .count_ones()
        .saturating_add(bits.context.count_ones())
}

/// The bits that the cube fixes and the region leaves open.
fn opened(region: &Cube, cube: &Cube) -> Point
    ensures open { IsOpen region.now result }
    ensures none { IsNoBit result → FixesNoMore region.now cube.now }
{
    Point {
        bytes: cube.mask & !region.mask,
        context: cube.ctx_mask & !region.ctx_mask,
    }
}

/// Counts each of the bits once more.
fn add(digits: &mut [Point], bits: &Point) {
    let mut carry = *bits;
    for digit in digits.iter_mut() {
        if has_no_bit(&carry) {
            return;
        }
        let next = Point {
            bytes: digit.bytes & carry.bytes,
            context: digit.context & carry.context,
        };
        digit.bytes ^= carry.bytes;
        digit.context ^= carry.context;
        carry = next;
    }
}

/// Those of the bits that are among the others, where some are, else all.
fn shared(bits: Point, others: &Point) -> Point
    ensures { IsAmong bits result }
{
    let both = Point {
        bytes: bits.bytes & others.bytes,
        context: bits.context & others.context,
    };
    if has_no_bit(&both) { bits } else { both }
}

/// Those of the bits that were counted most.
fn most(digits: &[Point], bits: Point) -> Point
    ensures { IsAmong bits result }
{
    let mut best = bits;
    for digit in digits.iter().rev() {
        best = shared(best, digit);
    }
    best
}

impl Tally {
    /// A tally of no cubes.
    pub fn new() -> Tally
        ensures { result.shortest ≡ None }
    {
        Tally {
            shortest: None,
            digits: [NO_BIT; DIGITS],
        }
    }

    /// Counts a cube more, unless it fixes more of the region's open bits than another, or none.
    fn weigh(&mut self, region: &Cube, cube: &Cube)
        ensures { IsWeighed region.now cube.now self.old.shortest self.new.shortest }
    {
        let bits = opened(region, cube);
        if has_no_bit(&bits) {
            return;
        }
        if let Some(shortest) = self.shortest {
            if count(&shortest) < count(&bits) {
                return;
            }
            if count(&shortest) == count(&bits) {
                add(&mut self.digits, &bits);
                return;
            }
        }
        self.shortest = Some(bits);
        self.digits = [NO_BIT; DIGITS];
        add(&mut self.digits, &bits);
    }

    /// Counts the cubes too, for the same region.
    pub fn weigh_all(&mut self, region: &Cube, cubes: &[Cube])
        ensures { AreWeighed region.now cubes.now self.old.shortest self.new.shortest }
    {
        for cube in cubes {
            self.weigh(region, cube);
        }
    }

    /// The halves of the region that was counted for, or `None` where each cube fixes no open bit.
    pub fn halves(&self, region: &Cube) -> Option<(Cube, Cube)>
        requires { IsOpenIfSome region.now self.now.shortest }
        ensures { MatchOption result (self.now.shortest ≡ None)
            (λ halves. IsHalved region.now halves.0 halves.1) }
    {
        let open = self.shortest?;
        let best = most(&self.digits, open);
        let bit = highest(&best)?;
        Some(parts(region, &bit))
    }
}
