//! Arrays that move to the switches where other tables have them.

ghost use Rattle.std.specs.Prelude.{◌≡◌, ◌<◌, ℕ, OnOk, length};
ghost use Rattle.snap_core.specs.Arrays.{with_array, zero_arrays};
ghost use Rattle.snap_rows.specs.Form.{array_count, switch_count};
ghost use Rattle.snap_net.specs.Moves.{Changed};
ghost use Rattle.snap_net.specs.Shown.{Holds, gathered, store_of};

use snap_core::NoMemory;
use snap_core::store::Store;
use snap_rows::valid::Valid;

/// Moves each array from its switch in some tables to its switch in others, whose stores are empty. A refusal for memory
/// leaves some arrays on either side.
pub(crate) fn move_arrays(
    from: &Valid,
    old: &mut Vec<Store>,
    to: &Valid,
    new: &mut Vec<Store>,
) -> Result<(), NoMemory>
    requires arrays { array_count to.now ≡ array_count from.now }
    requires old { length old.old.items ≡ switch_count from.now }
    requires new { length new.old.items ≡ switch_count to.now }
    requires empty { (w : ℕ) → store_of new.old.items w ≡ zero_arrays }
    ensures old { length old.new.items ≡ length old.old.items }
    ensures new { length new.new.items ≡ length new.old.items }
    ensures holds { OnOk result (Holds to.now new.new.items (gathered from.now old.old.items)) }
{
    let count = from.tables().arrays.items().len();
    for var in 0..count as u16 {
        let here = from.owner_of(var) as usize;
        let there = to.owner_of(var) as usize;
        exchange(var, old, here, new, there)?;
    }
    Ok(())
}

// Exchanges an array between two switches.
fn exchange(
    var: u16,
    old: &mut Vec<Store>,
    here: usize,
    new: &mut Vec<Store>,
    there: usize,
) -> Result<(), NoMemory>
    requires here { here < length old.old.items }
    requires there { there < length new.old.items }
    ensures old { OnOk result (Changed old.old.items old.new.items here (with_array (store_of old.old.items here) (store_of new.old.items there) var)) }
    ensures new { OnOk result (Changed new.old.items new.new.items there (with_array (store_of new.old.items there) (store_of old.old.items here) var)) }
    ensures olds { length old.new.items ≡ length old.old.items }
    ensures news { length new.new.items ≡ length new.old.items }
{
    old[here].swap_array(var, &mut new[there])
}
