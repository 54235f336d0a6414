//! Why the program never races.

ghost use Rattle.snap_demo.specs.Serial.{SerialNeverRaces};

/// A policy without parallel parts races on no store and packet.
pub(crate) fn serial_never_races()
    ensures { SerialNeverRaces }
{}
