//! Laws of the definitions.

ghost use Rattle.sl_base_graphs.specs.LevelEquations.{MeetEquations};
ghost use Rattle.sl_base_graphs.specs.Reaching.{TellsReaching};

/// A node reaches itself by the closure exactly where it does by any number of successors.
pub fn reaching_is_told()
    ensures { TellsReaching }
{}

/// In an order each value comes from those of the successors by one step.
pub fn values_meet_equations<C>()
    ensures { MeetEquations C }
{}
