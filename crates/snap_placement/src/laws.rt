//! Laws of placements, each the contract of a call that does nothing.

ghost use Rattle.snap_placement.specs.Laws.{PrintedIsRead};

/// The text of a placement is one that `read` reads as this placement, memory aside: of each text it answers the one answer.
pub fn printed_is_read()
    ensures { PrintedIsRead }
{}
