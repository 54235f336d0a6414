//! Tests of tables, and of networks that run them.
#![tactic(auto)]

#[cfg(test)]
mod of_changes;
#[cfg(test)]
mod of_demo;
#[cfg(test)]
mod of_faithful;
#[cfg(test)]
mod of_frame;
#[cfg(test)]
mod of_net;
#[cfg(test)]
mod of_order;
#[cfg(test)]
mod of_rows;
#[cfg(test)]
mod of_runs;
#[cfg(test)]
mod of_tables;
#[cfg(test)]
mod texts;
