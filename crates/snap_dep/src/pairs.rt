//! A relation as a list of pairs.

ghost use Rattle.std.specs.Prelude.{◌+◌, ◌<◌, ◌≤◌, ℕ, IfOk, OnOk, length};
ghost use Rattle.snap_dep.specs.Relations.{Relates, Lists, ListsTo};

use crate::relation::has_var;
use snap_core::NoMemory;
use std::alloc::Global;

// The pairs of a relation, in rising order of the first variable and then of the second.
pub(crate) fn pairs(alloc: Global, rows: &[u64]) -> Result<Vec<(u16, u16)>, NoMemory>
    requires small { length rows.now ≤ 64 }
    requires within { (s t : ℕ) → Relates rows.now s t → s < length rows.now }
    ensures { IfOk result (λ found. Lists (Relates rows.now) found.items) }
{
    let mut found = Vec::new(alloc);
    for from in 0..rows.len() {
        add_from(&mut found, rows, from)?;
    }
    Ok(found)
}

// Adds the pairs from one variable.
fn add_from(found: &mut Vec<(u16, u16)>, rows: &[u64], from: usize) -> Result<(), NoMemory>
    requires small { length rows.now ≤ 64 }
    requires within { from < length rows.now }
    requires before { ListsTo (Relates rows.now) (from, 0) found.old.items }
    ensures { OnOk result (ListsTo (Relates rows.now) (from + 1, 0) found.new.items) }
{
    for to in 0..rows.len() {
        if has_var(rows[to], from) {
            found.push((from as u16, to as u16))?;
        }
    }
    Ok(())
}
