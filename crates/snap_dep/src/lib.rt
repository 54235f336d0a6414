//! Dependencies between the variables of a program, their groups and the rank of each group.
//!
//! A variable depends on another where what happens to it can turn on it: `p; q` has a dependency from each variable that `p` reads
//! to each that `q` writes, a choice from each that its test reads to each that its branches write, and `atomic(p)` between all that
//! `p` uses. Variables that reach each other by dependencies are tied and form a group, which goes by its least variable. The rank
//! takes the groups one after another: of those whose predecessors are taken, the one with the least variable.
#![tactic(auto)]

pub mod calls;
pub mod groups;
pub mod laws;
mod order;
mod pairs;
mod relation;
mod uses;
