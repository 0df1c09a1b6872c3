//! What was found of how sets lie to one another, so that two of them are seldom compared twice.

ghost use Rattle.std.specs.Prelude.{◌↔◌, IsTrue, IfOk};
ghost use Rattle.sl_cube_sets.specs.Kept.{AreRight, IsKept, KeepsOrAdds};
ghost use Rattle.sl_cube_sets.specs.Unions.{IsBelow};

use super::CubeSet;
use super::within::is_below;
use std::alloc::{AllocError, Global};

/// At most so many answers are kept, so that those of 256 sets have places of their own.
const MOST: usize = 65_536;

/// Whether the set at the lower index lies below the one at the upper.
#[derive(Clone, Copy, Debug)]
struct Answer {
    lower: usize,
    upper: usize,
    below: bool,
}

/// Answers that were found about the sets of one table. An answer's place follows from its two sets;
/// a later one takes the place of an earlier.
#[derive(Debug, Drop)]
pub(crate) struct Answers {
    slots: Vec<Answer>,
}

impl Answers {
    /// No answers yet: each slot says that the first set doesn't lie below itself.
    pub(crate) fn new(alloc: Global, sets: &[CubeSet]) -> Result<Answers, AllocError>
        ensures { IfOk result (λ answers. AreRight sets.now answers) }
    {
        let nothing = Answer {
            lower: 0,
            upper: 0,
            below: false,
        };
        let count = sets.len().saturating_mul(sets.len()).min(MOST);
        let slots = vec![in alloc; nothing; count]?;
        Ok(Answers { slots })
    }

    /// The answer that is kept for the two sets, if one is.
    fn kept(&self, index: usize, lower: usize, upper: usize) -> Option<bool>
        ensures { IsKept self.now lower upper result }
    {
        let answer = self.slots.get(index)?;
        if answer.lower != lower {
            return None;
        }
        if answer.upper != upper {
            return None;
        }
        Some(answer.below)
    }

    /// Keeps an answer at the index, where there is such a slot.
    fn keep(&mut self, index: usize, answer: Answer)
        ensures { KeepsOrAdds self.old answer self.new }
    {
        if index < self.slots.len() {
            self.slots[index] = answer;
        }
    }

    /// Whether the set at the lower index lies properly within the one at the upper.
    pub(crate) fn is_below(
        &mut self,
        alloc: Global,
        sets: &[CubeSet],
        lower: usize,
        upper: usize,
    ) -> Result<bool, AllocError>
        requires { AreRight sets.now self.old }
        ensures exact { IfOk result (λ answer. IsTrue answer ↔ IsBelow sets.now lower upper) }
        ensures right { IfOk result (λ answer. AreRight sets.now self.new) }
    {
        if lower == upper {
            return Ok(false);
        }
        let index = slot(lower, upper, sets.len(), self.slots.len());
        let kept = self.kept(index, lower, upper);
        if let Some(answer) = kept {
            return Ok(answer);
        }
        let below = is_below(alloc, sets, lower, upper)?;
        let answer = Answer {
            lower,
            upper,
            below,
        };
        self.keep(index, answer);
        Ok(below)
    }
}

/// The place among `slots` of an answer on two of `count` sets.
fn slot(lower: usize, upper: usize, count: usize, slots: usize) -> usize {
    if slots == 0 {
        return 0;
    }
    lower.wrapping_mul(count).wrapping_add(upper) % slots
}
