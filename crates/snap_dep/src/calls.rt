//! The dependencies and the groups of a program.

ghost use Rattle.std.specs.Prelude.{◌≡◌, ◌≤◌, IfOk, length};
ghost use Rattle.snap_core.specs.Fields.{count};
ghost use Rattle.snap_core.specs.Fits.{PolFits};
ghost use Rattle.snap_dep.specs.Dependencies.{Depends, Reaches};
ghost use Rattle.snap_dep.specs.Ranks.{IsGrouping};
ghost use Rattle.snap_dep.specs.Relations.{IsRelation, Lists};

use crate::groups::Groups;
use crate::order::{by_rank, ranks};
use crate::pairs::pairs;
use crate::relation::close;
use crate::uses::depend;
use snap_core::NoMemory;
use snap_core::program::Program;
use std::alloc::Global;

/// The dependencies of a program, in rising order of the first variable and then of the second.
/// Refuses for memory alone.
pub fn dependencies(alloc: Global, program: &Program) -> Result<Vec<(u16, u16)>, NoMemory>
    requires few { length program.now.arrays ≤ 64 }
    requires fits { PolFits (count program.now.fields) (length program.now.arrays) program.now.body }
    ensures { IfOk result (λ found. Lists (Depends program.now.body) found.items) }
{
    let rows = related(alloc, program)?;
    pairs(alloc, &rows)
}

/// The groups of a program's variables. A variable that the program doesn't use is a group of its own.
/// Refuses for memory alone.
pub fn groups(alloc: Global, program: &Program) -> Result<Groups, NoMemory>
    requires few { length program.now.arrays ≤ 64 }
    requires fits { PolFits (count program.now.fields) (length program.now.arrays) program.now.body }
    ensures { IfOk result (λ made. IsGrouping program.now.body (length program.now.arrays) made) }
{
    let rows = chained(alloc, program)?;
    let order = by_rank(alloc, &rows)?;
    let ranks = ranks(alloc, &rows, &order)?;
    Ok(Groups::new(ranks, order))
}

// The dependencies of a program, as a relation.
fn related(alloc: Global, program: &Program) -> Result<Vec<u64>, NoMemory>
    requires few { length program.now.arrays ≤ 64 }
    requires fits { PolFits (count program.now.fields) (length program.now.arrays) program.now.body }
    ensures count { IfOk result (λ rows. length rows.items ≡ length program.now.arrays) }
    ensures rows { IfOk result (λ rows. IsRelation (Depends program.now.body) rows.items) }
{
    let mut rows = vec![in alloc; 0; program.arrays.items().len()]?;
    depend(&program.body, &mut rows);
    Ok(rows)
}

// Which variable reaches which, as a relation.
fn chained(alloc: Global, program: &Program) -> Result<Vec<u64>, NoMemory>
    requires few { length program.now.arrays ≤ 64 }
    requires fits { PolFits (count program.now.fields) (length program.now.arrays) program.now.body }
    ensures count { IfOk result (λ rows. length rows.items ≡ length program.now.arrays) }
    ensures rows { IfOk result (λ rows. IsRelation (Reaches program.now.body) rows.items) }
{
    let mut rows = related(alloc, program)?;
    close(&mut rows);
    Ok(rows)
}
