//! Placements of a program's arrays: read from TOML, printed, and those of least cost for a demand.
#![tactic(auto)]

pub mod best;
pub mod demand;
mod demand_document;
mod demand_listing;
mod demand_reading;
mod demand_resolve;
mod document;
pub mod laws;
mod marks;
pub mod placement;
mod plan;
mod price;
mod printing;
mod reading;
mod resolve;
mod search;
mod together;
mod trips;

pub use demand_reading::read_demand;
pub use printing::print;
pub use reading::read;
pub use search::seek;
