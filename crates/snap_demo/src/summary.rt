//! The summary of a demonstration.

ghost use Rattle.std.specs.Prelude.{◌≤◌, IfOk};
ghost use Rattle.snap_faithful.specs.Faithful.{Faithful};
ghost use Rattle.snap_demo.specs.Row.{stated_places, stated_topology};
ghost use Rattle.snap_demo.specs.Stated.{IsStated};
ghost use Rattle.snap_demo.specs.Summary.{IsSummary};

use crate::compile::compile;
use crate::packets::PACKETS;
use crate::program::program;
use crate::run::run;
use crate::text::{text_of, total_in};
use snap_core::NoMemory;
use snap_core::program::Program;
use snap_net::net::open_net;
use snap_rows::valid::Valid;
use std::alloc::Global;

/// **What one big switch does** with the packets of a demonstration, in counts: the program for so many switches in a row
/// is compiled, and the packets are run through the network of its tables, one after another (`docs/FORMATS.md`,
/// "Demonstrations"). Refuses for memory alone.
pub fn summary(alloc: Global, switches: u16) -> Result<Vec<u8>, NoMemory>
    requires some { 1 ≤ switches }
    requires few { switches ≤ 64 }
    ensures { IfOk result (λ text. IsSummary switches text.items) }
{
    let program = program(alloc, switches)?;
    let tables = compile(alloc, &program, switches)?;
    summary_of(alloc, &program, tables, switches)
}

// The summary of what these tables do.
fn summary_of(
    alloc: Global,
    program: &Program,
    tables: Valid,
    switches: u16,
) -> Result<Vec<u8>, NoMemory>
    requires some { 1 ≤ switches }
    requires few { switches ≤ 64 }
    requires stated { IsStated switches program.now }
    requires faithful { Faithful program.now (stated_topology switches) (stated_places switches) tables }
    ensures { IfOk result (λ text. IsSummary switches text.items) }
{
    let mut net = open_net(alloc, tables)?;
    let counts = run(alloc, &mut net, switches)?;
    let entries = net.entries()?;
    let seen = total_in(0, &entries)?;
    let count = total_in(1, &entries)?;
    let text = text_of(
        alloc,
        switches,
        PACKETS * switches as u64,
        &counts,
        seen,
        count,
    )?;
    Ok(text)
}
