//! Laws of steps and of runs.

ghost use Rattle.sl_step_meaning.specs.Laws.{CountedAreRuns, RunIsOne, SomeRun, SomeStep};
ghost use Rattle.sl_step_meaning.specs.Laws.{StepIsOne};

/// A machine has one next step at most.
#[tactic(auto, using(crate::proofs::StepLemmas::step_is_one))]
pub fn step_is_one()
    ensures { StepIsOne }
{}

/// It has one.
#[tactic(auto, using(crate::proofs::StepLemmas::some_step))]
pub fn some_step()
    ensures { SomeStep }
{}

/// Of so many steps there is one run at most.
#[tactic(auto, using(crate::proofs::StepLemmas::run_is_one))]
pub fn run_is_one()
    ensures { RunIsOne }
{}

/// There is one.
#[tactic(auto, using(crate::proofs::StepLemmas::some_run))]
pub fn some_run()
    ensures { SomeRun }
{}

/// A run whose operations are counted is a run.
#[tactic(auto, using(crate::proofs::StepLemmas::counted_are_runs))]
pub fn counted_are_runs()
    ensures { CountedAreRuns }
{}
