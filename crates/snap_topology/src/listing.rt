//! What a document of the right shape spells, before its names are looked up.

use std::collections::BTreeMap;

/// The names of the switches, the links as listed, and the ports by rising number.
#[derive(Drop)]
pub(crate) struct TopologyListing<'a> {
    pub(crate) switches: Vec<String>,
    pub(crate) links: Vec<(&'a str, &'a str)>,
    pub(crate) ports: BTreeMap<u32, &'a str>,
}
