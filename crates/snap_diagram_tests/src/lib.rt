//! Tests of contexts, and of the diagrams of programs.
#![tactic(auto)]

#[cfg(test)]
mod agreement;
#[cfg(test)]
mod given;
#[cfg(test)]
mod of_build;
#[cfg(test)]
mod of_chain;
#[cfg(test)]
mod of_context;
#[cfg(test)]
mod of_diagrams;
#[cfg(test)]
mod of_example;
#[cfg(test)]
mod of_join;
#[cfg(test)]
mod of_nodes;
