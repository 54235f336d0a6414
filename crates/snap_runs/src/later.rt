//! Tables that come into force later.

use snap_rows::valid::Valid;

/// Tables that come into force once so many packets have finished.
#[derive(Drop)]
pub struct Later {
    pub after: u64,
    pub tables: Valid,
}
