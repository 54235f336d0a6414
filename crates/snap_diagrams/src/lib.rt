//! Decision diagrams over shared nodes: tests in one order on each path, and leaves that say what is done.
#![tactic(auto)]

pub mod bounds;
pub mod codes;
pub mod equal;
mod forgetting;
pub mod leaf;
pub mod leaf_codes;
pub mod node;
pub mod nodes;
pub mod numbers;
pub mod only;
pub mod order;
pub mod pairs;
pub mod pick;
mod places;
pub mod pruning;
mod quiet;
pub mod reach;
mod spots;
mod subject;
mod survey;
mod tested;
pub mod walking;
