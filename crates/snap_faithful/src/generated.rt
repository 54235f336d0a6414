//! Tables as they are generated from a diagram.

ghost use Rattle.snap_faithful.specs.Generated.{WrittenIsFaithful};
ghost use Rattle.snap_faithful.specs.Shown.{ShownTablesAreLive, ShownTablesMean};
ghost use Rattle.snap_faithful.specs.Tidied.{TidyingIsSafe};

/// Tables that show the diagram of a program mean the program.
pub fn shown_tables_mean()
    ensures { ShownTablesMean }
{}

/// Tables that show a live diagram are live and reduced.
pub fn shown_tables_are_live()
    ensures { ShownTablesAreLive }
{}

/// A diagram with tidied leaves, in which tests whose ways become one are left out, keeps its outcome, its order, and that it is live; its leaves become bare.
pub fn tidying_is_safe()
    ensures { TidyingIsSafe }
{}

/// Tables with the planned rows of the numbered nodes of a bare diagram are faithful.
pub fn written_is_faithful()
    ensures { WrittenIsFaithful }
{}
