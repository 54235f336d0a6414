//! Updates at numbers: where two are at different numbers, it makes no difference which comes first.

ghost use Rattle.std.specs.Prelude.{◌≡◌, ◌∷◌, ◌++◌, [], IfOk, List, OnOk};
ghost use Rattle.std.specs.List.{All};
ghost use Rattle.snap_compose.specs.Fixed.{AreReordered, EndInRun, IsFixedUpdate};

use crate::ordered::falling;
use snap_context::plain::is_fixed;
use snap_core::NoMemory;
use snap_core::policy::Update;
use std::alloc::Global;

// Puts a run of updates at numbers behind others, those whose places are tested first at last, and empties it.
fn push_run(ordered: &mut Vec<Update>, run: &mut Vec<Update>) -> Result<(), NoMemory>
    requires { All IsFixedUpdate run.old.items }
    ensures empty { OnOk result (run.new.items ≡ []) }
    ensures reordered { OnOk result (AreReordered (ordered.old.items ++ run.old.items) ordered.new.items) }
{
    run.sort_by(|a, b| falling(a, b))?;
    ordered.append(run)?;
    Ok(())
}

// Puts an update behind others and a run: into it, or behind it.
fn push_in_run(
    ordered: &mut Vec<Update>,
    run: &mut Vec<Update>,
    update: &Update,
) -> Result<(), NoMemory>
    requires { All IsFixedUpdate run.old.items }
    ensures { OnOk result ((us : List Update) → EndInRun us ordered.old.items run.old.items → EndInRun (us ++ update.now ∷ []) ordered.new.items run.new.items) }
{
    let next = update.copy()?;
    if is_fixed(update.index.items()) {
        run.push(next)?;
        return Ok(());
    }
    push_run(ordered, run)?;
    ordered.push(next)?;
    Ok(())
}

/// Updates that do the same: of those at numbers with no others between, those whose places are tested first come last.
pub(crate) fn in_runs(alloc: Global, ups: &[Update]) -> Result<Vec<Update>, NoMemory>
    ensures { IfOk result (λ o. AreReordered ups.now o.items) }
{
    let mut ordered = Vec::with_capacity(alloc, ups.len())?;
    let mut run = Vec::new(alloc);
    for update in ups {
        push_in_run(&mut ordered, &mut run, update)?;
    }
    push_run(&mut ordered, &mut run)?;
    Ok(ordered)
}
