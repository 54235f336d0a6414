//! Diagrams side by side and one after another, predicates, and choices by them.
#![tactic(auto)]

pub mod chaining;
pub mod choosing;
mod expanding;
mod fixed;
pub mod joining;
mod leaves;
mod marks;
pub mod negating;
mod ordered;
mod pending_updates;
mod pulled_back;
mod separating;
mod spreading;
mod substituted;
pub mod summing;
mod uniting;
