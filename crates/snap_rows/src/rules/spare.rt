//! The rule that a chain of leads comes from a port to each row.

ghost use Rattle.std.specs.Prelude.{None, IfOk};
ghost use Rattle.snap_rows.specs.declared.tables.Rule.{Rule};
ghost use Rattle.snap_rows.specs.Form.{IsWellFormed};
ghost use Rattle.snap_rows.specs.Rules.{IsFirstSpot};

use crate::guesses::Guesses;
use crate::rules::follow::reached_rows;
use crate::tables::{Spot, Tables};
use snap_core::NoMemory;
use std::alloc::Global;

/// The first row to which no chain of leads from a port comes. Each pair to which an entry leads has a row.
pub(crate) fn spare_spot(
    alloc: Global,
    tables: &Tables,
    guesses: &Guesses,
) -> Result<Option<Spot>, NoMemory>
    requires form { IsWellFormed tables.now }
    requires loops { IsFirstSpot tables.now Rule.Loop None }
    requires kind { IsFirstSpot tables.now Rule.Kind None }
    requires missing { IsFirstSpot tables.now Rule.Missing None }
    ensures { IfOk result (IsFirstSpot tables.now Rule.Spare) }
{
    let marks = reached_rows(alloc, tables, guesses)?;
    for at in 0..tables.rows.len() {
        if !marks[at] {
            return Ok(Some(Spot::Row(at as u64)));
        }
    }
    Ok(None)
}
