//! All that the program does, over any shelf and sinks.
#![tactic(auto)]

mod changes;
mod check;
mod compile;
mod demo;
mod deps;
mod diagram;
mod equal;
pub mod headline;
mod in_order;
mod inputs;
pub mod laws;
mod network;
mod obs;
mod pair;
mod place;
mod program;
mod refusal;
mod rounds;
mod routes;
mod schedule;
mod spot;
mod tables;
mod text;
pub mod top;
mod topology;
mod trace;
