//! Lines of packets, and the report of one big switch over a file of them.
#![tactic(auto)]

mod ahead;
mod choice;
mod draft;
pub mod fault;
pub mod front;
mod guess;
pub mod laid;
pub mod line;
pub mod packets;
pub mod report;
pub mod runner;
pub mod switch;
mod tail;
pub mod words;

pub use draft::PacketDraft;
pub use fault::TraceFault;
pub use line::{Line, read_line};
