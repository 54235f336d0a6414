//! The words of the command line: which command they name, and its files.
//!
//! The first word is the command. The words behind it are options and names of files in any order; `--`
//! ends the options. `clap` reads them, and our own test refuses what it takes beyond names.
#![tactic(auto)]

pub mod calls;
pub mod command;
pub mod count;
pub mod fault;
mod told;
