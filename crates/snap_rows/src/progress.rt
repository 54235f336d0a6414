//! Laws of what can be done with valid tables.

ghost use Rattle.snap_rows.specs.Progress.{CanBeHandled, IsHandledOneWay, PlainRunsEnd};
ghost use Rattle.snap_rows.specs.Weight.{EachStepIsLighter, StepsFall};

/// A head at home can be handled.
pub fn steps_make_progress()
    ensures { CanBeHandled }
{}

/// It is handled in one way alone.
pub fn steps_are_deterministic()
    ensures { IsHandledOneWay }
{}

/// The plain schedule of each list of packets comes to its end.
pub fn plain_runs_end()
    ensures { PlainRunsEnd }
{}

/// After a step the copies that it leaves can make fewer steps than the one before could.
pub fn each_step_is_lighter()
    ensures { EachStepIsLighter }
{}

/// With each step of a network fewer steps are left.
pub fn steps_fall()
    ensures { StepsFall }
{}
