//! How many cubes fix each bit of a word to 0, and how many fix it to 1, counted for all bits at once.

/// A count has as many binary digits at most: a table has fewer than 2^26 cubes.
const DIGITS: usize = 28;

/// The bits of which a count has a binary digit: the count of the cubes that fix the bit to 0, and of
/// those that fix it to 1.
#[derive(Clone, Copy, Debug)]
struct Digit {
    zeros: u128,
    ones: u128,
}

const NO_DIGIT: Digit = Digit { zeros: 0, ones: 0 };

/// The two counts of each bit of a word, by their binary digits, the lowest first.
#[derive(Clone, Copy, Debug)]
pub struct Counts {
    digits: [Digit; 28],
}

/// Of some bits the one that cubes fix most evenly: the lowest of those whose lesser count is the
/// greatest, and this count. Where it is 0, the bit is 0 too, which stands for none.
#[derive(Clone, Copy, Debug)]
pub struct Even {
    pub bit: u128,
    pub count: usize,
}

impl Counts {
    /// The counts of no cubes.
    pub fn new() -> Counts {
        Counts {
            digits: [NO_DIGIT; DIGITS],
        }
    }

    /// Counts a cube more, which fixes these bits to 0 and to 1.
    pub fn add(&mut self, zeros: u128, ones: u128) {
        let mut carry = Digit { zeros, ones };
        for digit in self.digits.iter_mut() {
            if carry.zeros | carry.ones == 0 {
                return;
            }
            let next = Digit {
                zeros: digit.zeros & carry.zeros,
                ones: digit.ones & carry.ones,
            };
            digit.zeros ^= carry.zeros;
            digit.ones ^= carry.ones;
            carry = next;
        }
    }

    /// The bits that fewer cubes fix to 0 than to 1. The highest digit at which the counts differ tells.
    fn fewer_zeros(&self) -> u128 {
        let mut fewer = 0;
        for digit in self.digits.iter() {
            let apart = digit.zeros ^ digit.ones;
            fewer = fewer & !apart | digit.ones & apart;
        }
        fewer
    }

    /// The bits that fewer than `least` cubes fix.
    fn below(&self, least: usize) -> u128 {
        let mut below = 0;
        let mut carry = 0;
        let mut rest = least;
        for digit in self.digits.iter() {
            let sum = digit.zeros ^ digit.ones ^ carry;
            carry = digit.zeros & digit.ones | carry & (digit.zeros ^ digit.ones);
            let bound = if rest & 1 == 1 { u128::MAX } else { 0 };
            rest >>= 1;
            let apart = sum ^ bound;
            below = below & !apart | bound & apart;
        }
        below
    }

    /// Of those of the bits that at least `least` cubes fix, the one that they fix most evenly.
    pub fn most_even(&self, bits: u128, least: usize) -> Even {
        let fewer = self.fewer_zeros();
        let mut best = bits & !self.below(least);
        let mut count = 0;
        for digit in self.digits.iter().rev() {
            let with = best & (digit.zeros & fewer | digit.ones & !fewer);
            count <<= 1;
            if with != 0 {
                best = with;
                count |= 1;
            }
        }
        let bit = if count == 0 {
            0
        } else {
            best & best.wrapping_neg()
        };
        Even { bit, count }
    }
}
