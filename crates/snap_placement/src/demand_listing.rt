//! What a document of the right shape spells, before its names are looked up.

use crate::demand::Flow;

/// Switch names at which an array may stand.
#[derive(Drop)]
pub(crate) struct AllowedAt {
    pub(crate) name: String,
    pub(crate) places: Vec<String>,
}

/// The flows as read, and the entries in byte order of the arrays' names.
#[derive(Drop)]
pub(crate) struct DemandListing {
    pub(crate) flows: Vec<Flow>,
    pub(crate) allowed: Vec<AllowedAt>,
}
