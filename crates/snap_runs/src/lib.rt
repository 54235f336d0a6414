//! Runs of the network over files of packets, with tables that stay or change, and their reports.
#![tactic(auto)]

pub mod change;
mod digits;
pub mod event;
pub mod frames;
pub mod later;
pub mod laws;
mod links;
mod mover;
pub mod play;
pub mod ready;
pub mod runner;
pub mod schedule;
pub mod shape;
pub mod tail;
pub mod tally;
pub mod trace;
pub mod trace_changes;
pub mod tracer;
