//! The lines of entries.

ghost use Rattle.std.specs.Prelude.{◌≡◌, ◌+◌, ◌^◌, ◌<◌};
ghost use Rattle.snap_tables.specs.Drafts.{ArePlaces, place_of, tables_of};
ghost use Rattle.snap_tables.specs.Lines.{lines_of};

use crate::draft::TablesDraft;
use snap_rows::tables::Spot;

/// The lines of the first array, port, next hop and row, counted from 1.
#[derive(Clone, Copy)]
pub(crate) struct Places {
    pub arrays: u64,
    pub ports: u64,
    pub hops: u64,
    pub rows: u64,
}

impl Places {
    /// Those of a draft.
    pub(crate) fn of(draft: &TablesDraft) -> Places
        requires { lines_of (tables_of draft.now) + 1 < 2 ^ 64 }
        ensures { ArePlaces (tables_of draft.now) result }
    {
        let arrays = 2 + draft.fields.len() as u64 + draft.switches.len() as u64;
        let ports = arrays + draft.arrays.len() as u64 + draft.links.len() as u64;
        let hops = ports + draft.ports.len() as u64;
        let rows = hops + draft.hops.len() as u64;
        Places {
            arrays,
            ports,
            hops,
            rows,
        }
    }
}

/// The line of an entry.
pub(crate) fn line_of(places: Places, spot: Spot) -> u64
    requires { place_of places spot < 2 ^ 64 }
    ensures { result ≡ place_of places spot }
{
    match spot {
        Spot::Array(at) => places.arrays + u64::from(at),
        Spot::Port(at) => places.ports + u64::from(at),
        Spot::Hop(at) => places.hops + u64::from(at),
        Spot::Row(at) => places.rows + at,
    }
}
