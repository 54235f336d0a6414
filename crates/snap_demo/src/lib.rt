//! A program on a row of switches that is compiled and run over packets, all of them made here, and what came of it.
#![tactic(auto)]

mod compile;
mod counts;
mod network;
mod packets;
mod program;
mod run;
mod serial;
pub mod summary;
mod text;
