//! Tables of a program's diagram.
#![tactic(auto)]

mod bodies;
mod demanded;
pub mod demands;
mod fronts;
mod known;
pub mod on_demand;
mod outline;
pub mod rows;
mod shares;
mod sites;
pub mod switches;
pub mod tables;
mod ways;
