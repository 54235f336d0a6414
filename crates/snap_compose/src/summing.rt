//! Updates behind updates, where additions at one place are added up.

ghost use Rattle.std.specs.Prelude.{◌≡◌, ◌∷◌, [], ◌++◌, IfSome, IsTrue, OnOk};
ghost use Rattle.snap_compose.specs.Additions.{added_up, AreSame, IsAddend, IsSpelledAt};

use crate::ordered::adds;
use snap_core::NoMemory;
use snap_core::policy::{Op, Update};
use snap_diagrams::equal::same_index;

// How many additions are looked at for one at the same place: so that what it costs to put updates behind others doesn't
// grow faster than what it costs to copy them.
const MOST_PASSED: usize = 64;

// Whether two updates are of one array, at indices that are spelled the same.
fn is_spelled_at(left: &Update, right: &Update) -> bool
    ensures { IsTrue result → IsSpelledAt left.now right.now }
{
    left.var == right.var && same_index(left.index.items(), right.index.items())
}

// The last addition at the place of an update, where additions alone come after it.
fn addend(updates: &[Update], update: &Update) -> Option<usize>
    ensures { IfSome result (IsAddend updates.now update.now) }
{
    for passed in 0..updates.len().min(MOST_PASSED) {
        let place = updates.len() - 1 - passed;
        let earlier = &updates[place];
        if !adds(earlier) {
            return None;
        }
        if is_spelled_at(earlier, update) {
            return Some(place);
        }
    }
    None
}

// An addition with so much more, modulo 2^64.
fn added_up(op: Op, more: u64) -> Op
    ensures { result ≡ added_up op more }
{
    match op {
        Op::Put(_) => op,
        Op::Add(num) => Op::Add(num.wrapping_add(more)),
    }
}

/// Puts an update behind others: an addition is added to one at the same place, where additions alone come between. Refuses
/// for memory alone.
pub fn push_update(updates: &mut Vec<Update>, update: &Update) -> Result<(), NoMemory>
    ensures { OnOk result (AreSame updates.new.items (updates.old.items ++ update.now ∷ [])) }
{
    if let Op::Add(num) = update.op {
        if let Some(place) = addend(updates, update) {
            updates[place].op = added_up(updates[place].op, num);
            return Ok(());
        }
    }
    updates.push(update.copy()?)?;
    Ok(())
}

/// Puts updates behind others as they are.
pub(crate) fn push_copies(updates: &mut Vec<Update>, more: &[Update]) -> Result<(), NoMemory>
    ensures { OnOk result (updates.new.items ≡ updates.old.items ++ more.now) }
{
    for update in more {
        updates.push(update.copy()?)?;
    }
    Ok(())
}

/// Puts updates behind others, one after another.
pub(crate) fn push_updates(updates: &mut Vec<Update>, more: &[Update]) -> Result<(), NoMemory>
    ensures { OnOk result (AreSame updates.new.items (updates.old.items ++ more.now)) }
{
    for update in more {
        push_update(updates, update)?;
    }
    Ok(())
}
