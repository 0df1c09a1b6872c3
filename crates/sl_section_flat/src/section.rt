//! Sections.

ghost use Rattle.std.specs.Prelude.{◌≤◌};
ghost use Rattle.sl_section_flat.specs.Numbered.{StepsBelow, StepsBelow-prop};
ghost use Rattle.sl_section_flat.specs.Views.{steps_of};
ghost use Rattle.sl_section_flat.specs.declared.section.TheConstants.{MOST_VARIABLES};

use crate::step::Step;

/// The most size variables of a section. Each takes a token of its own, and a section weighs at
/// most as many tokens (rule 38).
pub const MOST_VARIABLES: u32 = 65_536;

/// A section (SLEIGH manual, "The Semantic Section"), flat. Its size variables count from 0, in
/// the order in which they come first in its text, macros taken out call by call.
#[derive(Drop)]
pub struct Section<'a> {
    pub steps: Vec<Step<'a>>,
    /// How many size variables there are.
    pub variables: u32,
    ghost few: { variables ≤ MOST_VARIABLES },
    ghost numbered: { StepsBelow variables (steps_of steps.items) } by { StepsBelow-prop _ _ },
}
