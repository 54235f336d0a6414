//! The network: stores of switches, copies of packets in flight, and their frames.
#![tactic(auto)]

mod block;
pub mod decode;
pub mod encode;
mod flights;
pub mod flying;
pub mod frame_laws;
pub mod happened;
pub mod laws;
pub mod moves;
pub mod net;
pub mod parts;
pub mod passing;
mod rehousing;
pub mod watch;
