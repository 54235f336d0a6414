//! Two leaves combined, and a predicate's leaf turned round.

ghost use Rattle.std.specs.Prelude.{◌≡◌, ◌++◌, IfOk, OnOk};
ghost use Rattle.snap_diagrams.specs.declared.leaf.Leaf.TheVariants.{Go as Goes};
ghost use Rattle.snap_compose.specs.Beside.{logs_clash};
ghost use Rattle.snap_compose.specs.Predicates.{turned_outs, negate_leaf};
ghost use Rattle.snap_compose.specs.Joined.{only, beside_leaf, both_leaf, either_leaf, logged_leaf, combined, both_outs, either_outs};

use crate::uniting::unite;
use snap_context::sets::is_in;
use snap_core::NoMemory;
use snap_core::lists::{Out, Outs, Updates};
use snap_core::policy::Update;
use snap_diagrams::leaf::{Go, Leaf};
use std::alloc::Global;

/// How two leaves are combined.
#[derive(Clone, Copy)]
pub enum How {
    /// Side by side, or a race.
    Beside,
    /// Two predicates, both.
    AndBoth,
    /// Two predicates, one or both.
    OrEither,
    /// The second, with the reads of the first.
    Logged,
}

// Adds the updates of the variables of a set.
fn push_updates(to: &mut Vec<Update>, set: u64, updates: &[Update]) -> Result<(), NoMemory>
    ensures { OnOk result (to.new.items ≡ to.old.items ++ only set updates.now) }
{
    for update in updates {
        if is_in(set, update.var) {
            to.push(update.copy()?)?;
        }
    }
    Ok(())
}

/// Whether one writes what the other reads or writes.
pub fn clash(a: &Go, b: &Go) -> bool
    ensures { result ≡ logs_clash a.now.reads a.now.writes b.now.reads b.now.writes }
{
    a.writes & (b.reads | b.writes) != 0 || b.writes & (a.reads | a.writes) != 0
}

fn go_beside(alloc: Global, a: &Go, b: &Go) -> Result<Leaf, NoMemory>
    ensures { IfOk result (λ l. l ≡ beside_leaf (Goes a.now) (Goes b.now)) }
{
    if clash(a, b) {
        return Ok(Leaf::Race);
    }
    let outs = unite(alloc, a.outs.items(), b.outs.items())?;
    let mut ups = Vec::new(alloc);
    push_updates(&mut ups, a.writes, a.ups.items())?;
    push_updates(&mut ups, b.writes, b.ups.items())?;
    Ok(Leaf::Go(Go {
        outs: Outs::new(outs),
        ups: Updates::new(ups),
        reads: a.reads | b.reads,
        writes: a.writes | b.writes,
    }))
}

fn outs_of_both(alloc: Global, a: &Outs, b: &Outs) -> Result<Outs, NoMemory>
    ensures { IfOk result (λ o. o ≡ both_outs a.now b.now) }
{
    if a.items().is_empty() {
        return a.copy(alloc);
    }
    b.copy(alloc)
}

fn outs_of_either(alloc: Global, a: &Outs, b: &Outs) -> Result<Outs, NoMemory>
    ensures { IfOk result (λ o. o ≡ either_outs a.now b.now) }
{
    if a.items().is_empty() {
        return b.copy(alloc);
    }
    a.copy(alloc)
}

fn go_both(alloc: Global, a: &Go, b: &Go) -> Result<Leaf, NoMemory>
    ensures { IfOk result (λ l. l ≡ both_leaf (Goes a.now) (Goes b.now)) }
{
    let outs = outs_of_both(alloc, &a.outs, &b.outs)?;
    Ok(Leaf::Go(Go {
        outs,
        ups: Updates::new(Vec::new(alloc)),
        reads: a.reads | b.reads,
        writes: 0,
    }))
}

fn go_either(alloc: Global, a: &Go, b: &Go) -> Result<Leaf, NoMemory>
    ensures { IfOk result (λ l. l ≡ either_leaf (Goes a.now) (Goes b.now)) }
{
    let outs = outs_of_either(alloc, &a.outs, &b.outs)?;
    Ok(Leaf::Go(Go {
        outs,
        ups: Updates::new(Vec::new(alloc)),
        reads: a.reads | b.reads,
        writes: 0,
    }))
}

fn go_logged(alloc: Global, a: &Go, b: &Go) -> Result<Leaf, NoMemory>
    ensures { IfOk result (λ l. l ≡ logged_leaf (Goes a.now) (Goes b.now)) }
{
    let outs = b.outs.copy(alloc)?;
    let ups = b.ups.copy(alloc)?;
    Ok(Leaf::Go(Go {
        outs,
        ups,
        reads: a.reads | b.reads,
        writes: b.writes,
    }))
}

fn negated(alloc: Global, outs: &[Out]) -> Result<Outs, NoMemory>
    ensures { IfOk result (λ o. o ≡ turned_outs outs.now) }
{
    let mut other = Vec::new(alloc);
    if outs.is_empty() {
        other.push(Out::new(Vec::new(alloc)))?;
    }
    Ok(Outs::new(other))
}

/// A predicate's leaf turned round. Refuses for memory alone.
pub fn negate_of(alloc: Global, leaf: &Leaf) -> Result<Leaf, NoMemory>
    ensures { IfOk result (λ l. l ≡ negate_leaf leaf.now) }
{
    match leaf {
        Leaf::Race => Ok(Leaf::Race),
        Leaf::Go(go) => {
            let outs = negated(alloc, go.outs.items())?;
            Ok(Leaf::Go(Go {
                outs,
                ups: Updates::new(Vec::new(alloc)),
                reads: go.reads,
                writes: 0,
            }))
        }
    }
}

// Two leaves that don't race, combined.
fn combine_gos(alloc: Global, how: How, a: &Go, b: &Go) -> Result<Leaf, NoMemory>
    ensures { IfOk result (λ l. l ≡ combined how (Goes a.now) (Goes b.now)) }
{
    match how {
        How::Beside => go_beside(alloc, a, b),
        How::AndBoth => go_both(alloc, a, b),
        How::OrEither => go_either(alloc, a, b),
        How::Logged => go_logged(alloc, a, b),
    }
}

/// Two leaves combined. Refuses for memory alone.
pub fn combine_leaves(alloc: Global, how: How, a: &Leaf, b: &Leaf) -> Result<Leaf, NoMemory>
    ensures { IfOk result (λ l. l ≡ combined how a.now b.now) }
{
    match a {
        Leaf::Race => Ok(Leaf::Race),
        Leaf::Go(first) => match b {
            Leaf::Race => Ok(Leaf::Race),
            Leaf::Go(second) => combine_gos(alloc, how, first, second),
        },
    }
}
