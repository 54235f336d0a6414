//! Laws alone: runs of tables that are faithful to a program do what one big switch does.
#![tactic(auto)]

pub mod change_laws;
pub mod laws;
