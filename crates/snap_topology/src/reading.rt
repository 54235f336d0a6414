//! From a text to its topology.

ghost use Rattle.std.specs.Prelude.{◌≢◌, Err, Ok, IfOk, MatchResult};
ghost use Rattle.snap_topology.specs.Answer.{IsAnswer};
ghost use Rattle.snap_topology.specs.Form.{IsWellFormed};

use crate::document::{listing_of, table_of};
use crate::resolve::resolve;
use crate::topology::{TopoFault, Topology};
use std::alloc::Global;

/// Reads a topology from a TOML document.
///
/// The keys are `switches`, a non-empty array of names; `links`, an array of pairs of different names; and `ports`, a
/// table from numbers from 1 to 4294967295 to names. A link that is listed twice, in either direction, counts once.
/// The first fault, in the order of `TopoFault`, is answered; want of memory may be answered at any time.
pub fn read(alloc: Global, text: &[u8]) -> Result<Topology, TopoFault>
    ensures answer { MatchResult result (λ t. IsAnswer text.now (Ok t))
        (λ e. e ≢ TopoFault.NoMemory → IsAnswer text.now (Err e)) }
    ensures form { IfOk result IsWellFormed }
{
    let table = table_of(alloc, text)?;
    let listing = listing_of(alloc, &table)?;
    resolve(alloc, listing)
}
