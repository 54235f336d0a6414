//! Whether two programs mean the same, by their diagrams.
#![tactic(auto)]

mod agreeing;
pub mod comparing;
mod held;
mod keys;
mod leaves;
mod marks;
mod names;
mod orders;
mod outs;
mod overwritten;
mod places;
mod spelling;
mod stop;
mod stores;
mod sure;
mod tally;
mod terms;
mod weaker;
