//! Laws of the machine.

ghost use Rattle.sl_pcode.specs.SmallSteps.{EachListHasOneResult, EachRunIsSteps};

/// The run of a list by recursion is that of the machine that goes step by step, with a place, a
/// count of jumps, memory and temporary bytes.
pub fn runs_are_steps()
    ensures { EachRunIsSteps }
{}

/// Each list ends, and has one result.
pub fn lists_have_one_result()
    ensures { EachListHasOneResult }
{}
