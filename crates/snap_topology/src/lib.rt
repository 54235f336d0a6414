//! Topologies, read from TOML, and their routes: distances, next hops and the diameter.
#![tactic(auto)]

pub mod calls;
pub mod document;
mod graph;
mod hops;
mod listing;
pub mod names;
mod reading;
mod resolve;
mod rows;
mod search;
pub mod table;
pub mod topology;

pub use reading::read;
