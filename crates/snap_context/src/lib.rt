//! Contexts: facts of a store and a packet, what follows from them, and examples that meet them.
#![tactic(auto)]

mod ask;
mod classes;
mod close;
pub mod context;
pub mod example;
pub mod fact;
pub mod facts;
pub mod fits;
mod known;
pub mod laws;
mod look;
mod named;
pub mod plain;
mod rooted;
pub mod sets;
mod settled;
mod terms;
pub mod tested;
