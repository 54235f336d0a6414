//! Overlap in order: each rank handles the packets in the order of their injection.
#![tactic(auto)]

mod counts;
mod deal;
pub mod gate;
mod hand;
mod job;
pub mod laws;
mod lent;
pub mod net;
mod play;
pub mod round;
pub mod schedule;
mod team;
pub mod trace;
pub mod turned;
mod weave;
pub mod workers;
