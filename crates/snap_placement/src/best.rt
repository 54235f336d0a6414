//! A best placement.

use snap_core::lists::List;

/// The number of each variable's switch.
pub type Owners = List<u16>;

/// A placement and its cost, which is below 2^63.
#[derive(Drop)]
pub struct Best {
    pub cost: u64,
    pub owners: Owners,
}
