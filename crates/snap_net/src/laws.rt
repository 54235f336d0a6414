//! Laws of runs.

ghost use Rattle.snap_net.specs.Laws.{ArraysStayHome};

/// After every list of events no switch holds a number of an array that stands elsewhere.
pub fn arrays_stay_home()
    ensures { ArraysStayHome }
{}
