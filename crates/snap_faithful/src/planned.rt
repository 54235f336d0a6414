//! Which rows the tables have.

ghost use Rattle.snap_faithful.specs.Planned.{PlannedIsValid};

/// Tables with the planned rows are valid.
pub fn planned_is_valid()
    ensures { PlannedIsValid }
{}
