//! Tests of the whole program.
#![tactic(auto)]

#[cfg(test)]
mod calls;
#[cfg(test)]
mod check;
#[cfg(test)]
mod compile;
#[cfg(test)]
mod demo;
#[cfg(test)]
mod deps;
#[cfg(test)]
mod in_order;
#[cfg(test)]
mod obs;
#[cfg(test)]
mod routes;
#[cfg(test)]
mod trace;
