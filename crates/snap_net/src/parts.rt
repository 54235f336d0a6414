//! What a network holds, in parts that can be shared out.

use crate::flying::Flying;
use snap_core::store::Store;
use snap_rows::valid::Valid;

/// What a network holds: tables, the stores of their switches in order, the number of packets that were injected, and the
/// copies in flight.
#[derive(Drop)]
pub struct Parts {
    pub tables: Valid,
    pub stores: Vec<Store>,
    pub injected: u64,
    pub flying: Vec<Flying>,
}
