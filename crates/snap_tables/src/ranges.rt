//! What the types say of the numbers of tables: reading them tells.

ghost use Rattle.std.specs.Prelude.{◌<◌, ◌^◌};
ghost use Rattle.std.specs.List.{All};
ghost use Rattle.snap_core.specs.declared.ports.PortAt.{PortAt};
ghost use Rattle.snap_core.specs.Ranges.{TestInRange};
ghost use Rattle.snap_tables.specs.Ranges.{RowAtInRange, RowInRange, TablesInRange, UpsInRange};

use snap_core::bits::{know_outs, know_test, know_updates};
use snap_core::policy::Test;
use snap_core::ports::PortAt;
use snap_rows::lists::Rows;
use snap_rows::tables::{Row, Stage, Tables};

pub(crate) fn know_number(number: u64)
    ensures { number < 2 ^ 64 }
{}

fn know_port(port: &PortAt)
    ensures { port.now.port < 2 ^ 32 }
{
    let _number = port.port;
}

fn know_stages(stages: &[Stage])
    ensures { All UpsInRange stages.now }
{
    for stage in stages {
        know_updates(stage.ups.items());
    }
}

// A test and its ways.
fn know_ways(test: &Test, yes: u64, no: u64)
    ensures test { TestInRange test.now }
    ensures yes { yes < 2 ^ 64 }
    ensures no { no < 2 ^ 64 }
{
    know_test(test);
}

pub(crate) fn know_row(row: &Row)
    ensures { RowInRange row.now }
{
    match row {
        Row::Field { test, yes, no } => know_ways(test, *yes, *no),
        Row::State { test, yes, no } => know_ways(test, *yes, *no),
        Row::Go { .. } => {}
        Row::Leaf { stages, outs } => {
            know_stages(stages.items());
            know_outs(outs.items());
        }
        Row::Stop => {}
        Row::Last { ups, outs } => {
            know_updates(ups.items());
            know_outs(outs.items());
        }
    }
}

fn know_rows(rows: &Rows)
    ensures { All RowAtInRange rows.now }
{
    for place in 0..rows.len() {
        let row = rows.at(place);
        know_number(row.number);
        know_row(row.row);
    }
}

pub(crate) fn know_ports(ports: &[PortAt])
    ensures { All (λ (p : PortAt). p.port < 2 ^ 32) ports.now }
{
    for port in ports {
        know_port(port);
    }
}

/// Numbers of tables have 64 bits, and those of ports 32.
pub(crate) fn know_tables(tables: &Tables)
    ensures { TablesInRange tables.now }
{
    know_ports(tables.ports.items());
    know_rows(&tables.rows);
}
