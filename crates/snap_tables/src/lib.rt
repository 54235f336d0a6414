//! The text of tables, written and read.
#![tactic(auto)]

mod draft;
mod entries;
pub mod fault;
mod item;
mod known;
pub mod laws;
mod leaf;
mod line;
mod named;
mod piece;
mod pieces;
mod places;
pub mod print;
mod ranges;
pub mod read;
mod reader;
mod row;
mod row_parts;
mod rows;
mod scan;
mod taken;
mod texts;
mod words;
