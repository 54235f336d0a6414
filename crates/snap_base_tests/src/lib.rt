//! Tests of what the other crates stand on: the core language, files, topologies, routes, placements and packets.
#![tactic(auto)]

#[cfg(test)]
mod given;
#[cfg(test)]
mod of_core;
#[cfg(test)]
mod of_demand;
#[cfg(test)]
mod of_dep;
#[cfg(test)]
mod of_io;
#[cfg(test)]
mod of_placement;
#[cfg(test)]
mod of_report;
#[cfg(test)]
mod of_routes;
#[cfg(test)]
mod of_topology;
