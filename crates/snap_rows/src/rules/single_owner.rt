//! Whether tables are single-owner.

ghost use Rattle.std.specs.Prelude.{◌≡◌, ◌↔◌, IfOk, IsTrue, All};
ghost use Rattle.snap_rows.specs.declared.tables.ArrayAt.{ArrayAt};
ghost use Rattle.snap_rows.specs.Form.{IsWellFormed};
ghost use Rattle.snap_rows.specs.SingleOwner.{IsAtOne, IsSingleOwner};
ghost use Rattle.snap_rows.specs.Rules.{IsValid};

use crate::rules::alone::is_single_owner_one;
use crate::tables::{ArrayAt, Tables};
use snap_core::NoMemory;
use std::alloc::Global;

// Whether all arrays stand at a switch.
fn stand(arrays: &[ArrayAt], at: u16) -> bool
    ensures { IsTrue result ↔ All (λ (a : ArrayAt). a.at ≡ at) arrays.now }
{
    arrays.iter().all(|array| array.at == at)
}

// Whether all arrays stand at one switch.
fn stand_together(arrays: &[ArrayAt]) -> bool
    ensures { IsTrue result ↔ IsAtOne arrays.now }
{
    if arrays.len() == 0 {
        return true;
    }
    let first = &arrays[0];
    stand(arrays, first.at)
}

fn is_single_owner_two(tables: &Tables) -> bool
    requires { tables.now.version ≡ 2 }
    ensures { IsTrue result ↔ IsSingleOwner tables.now }
{
    stand_together(tables.arrays.items())
}

/// Whether tables are single-owner.
pub(crate) fn is_single_owner(alloc: Global, tables: &Tables) -> Result<bool, NoMemory>
    requires form { IsWellFormed tables.now }
    requires valid { IsValid tables.now }
    ensures { IfOk result (λ single_owner. IsTrue single_owner ↔ IsSingleOwner tables.now) }
{
    if tables.version == 2 {
        return Ok(is_single_owner_two(tables));
    }
    is_single_owner_one(alloc, tables)
}
