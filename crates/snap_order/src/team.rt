//! Jobs that are done at once.

ghost use Rattle.std.specs.Prelude.{◌≡◌, ◌<◌, [], false, true, All, length};
ghost use Rattle.std.specs.List.{AllZip};
ghost use Rattle.std.specs.Thread.{IsSync};
ghost use Rattle.snap_order.specs.declared.job.Job.{Job};
ghost use Rattle.snap_order.specs.Jobs.{AreReady, HasWorked};

use crate::gate::Gate;
use crate::job::{Job, work};
use snap_rows::valid::Valid;
use std::alloc::Global;
use std::thread::{Threads, join_mut};

// Whether no job has a copy.
fn are_idle(jobs: &[Job]) -> bool
    ensures idle { result ≡ true → All (λ (j : Job). j.copies.items ≡ []) jobs.now }
    ensures some { result ≡ false → 0 < length jobs.now }
{
    for job in jobs {
        if !is_idle(job) {
            return false;
        }
    }
    true
}

// Whether a job has no copy.
fn is_idle(job: &Job) -> bool
    ensures { result ≡ true → job.now.copies.items ≡ [] }
{
    job.copies.is_empty()
}

/// Does all jobs at once. One without copies takes no thread, and one is done by the caller.
pub(crate) fn work_all<R: Threads + Sync, G: Gate>(
    rt: &R,
    alloc: Global,
    tables: &Valid,
    counts: &[u64],
    number: u64,
    gate: &G,
    jobs: &mut [Job],
)
    requires { AreReady tables.now counts.now jobs.old }
    ensures { AllZip (HasWorked tables.now counts.now) jobs.old jobs.new }
{
    if are_idle(jobs) {
        return;
    }
    if jobs.len() == 1 {
        work(alloc, tables, counts, number, gate, &mut jobs[0]);
        return;
    }
    let (front, back) = jobs.split_at_mut(jobs.len() / 2);
    if are_idle(front) {
        work_all(rt, alloc, tables, counts, number, gate, back);
        return;
    }
    if are_idle(back) {
        work_all(rt, alloc, tables, counts, number, gate, front);
        return;
    }
    join_mut(
        rt,
        &mut ||
            requires { IsSync R.row × AreReady tables.now counts.now front.now }
            ensures { AllZip (HasWorked tables.entry.now counts.entry.now) front.entry.now front.exit.now }
        { work_all(rt, alloc, tables, counts, number, gate, front) },
        &mut ||
            requires { IsSync R.row × AreReady tables.now counts.now back.now }
            ensures { AllZip (HasWorked tables.entry.now counts.entry.now) back.entry.now back.exit.now }
        { work_all(rt, alloc, tables, counts, number, gate, back) },
    );
}
