//! Tables that make the whole network behave as one big switch, and why they do.
#![tactic(auto)]

pub mod faithful;
pub mod generated;
pub mod images;
pub mod in_order;
pub mod leaves;
pub mod numbering;
pub mod on_demand;
pub mod planned;
