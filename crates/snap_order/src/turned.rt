//! What a step in order tells, with the frame that crosses a link.

ghost use Rattle.std.specs.Prelude.{◌≡◌};
ghost use Rattle.snap_net.specs.Shown.{frame_with};
ghost use Rattle.snap_order.specs.Shown.{frame_turned, moved_turned};

use snap_net::happened::{Framed, Happened, Moved};

/// What a step in order does with a copy of packet `number`.
#[derive(Drop)]
pub enum OrderedHappened {
    /// What a step without order does.
    Moved(Happened),
    /// It made visits, and stays where it is for its visit of `rank`, whose turn hasn't come.
    Visited { number: u64, rank: u16 },
    /// It waits for its visit of `rank`, whose turn hasn't come: nothing has changed.
    Waited { number: u64, rank: u16 },
}

impl OrderedHappened {
    /// This as one value. Takes no memory.
    pub(crate) fn of(framed: Framed) -> OrderedHappened
        ensures moved { moved_turned result ≡ framed.moved }
        ensures frame { frame_turned result ≡ frame_with framed.moved framed.frame.items }
    {
        match framed.moved {
            Moved::Stayed { number, rank } => OrderedHappened::Visited { number, rank },
            Moved::Waited { number, rank } => OrderedHappened::Waited { number, rank },
            _ => OrderedHappened::Moved(Happened::of(framed)),
        }
    }
}
