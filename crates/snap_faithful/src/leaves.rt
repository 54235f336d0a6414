//! Leaves as tables have them.

ghost use Rattle.std.specs.Prelude.{◌≡◌, ◌++◌, IfOk, OnOk, length, map, slice_index};
ghost use Rattle.std.specs.List.Sorted.{IsSorted};
ghost use Rattle.std.specs.Ordering.{eq_by_cmp, nat_cmp, ordering_then};
ghost use Rattle.snap_rows.specs.Form.{atom_cmp, parts_cmp};
ghost use Rattle.snap_faithful.specs.Leaves.{AreInOrder, AreTidyOuts, IsTidy, by_ranks, changes, is_itself, is_still, of_rank};

use snap_core::NoMemory;
use snap_core::lists::{Out, Outs, Updates};
use snap_core::policy::{Atom, Op, Update};
use snap_dep::groups::Groups;
use snap_diagrams::leaf::{Go, Leaf};
use std::alloc::Global;
use std::cmp::Ordering;

fn is_still(op: Op) -> bool
    ensures { result ≡ is_still op }
{
    match op {
        Op::Put(_) => false,
        Op::Add(num) => num == 0,
    }
}

// The rank of a variable.
fn rank_of(groups: &Groups, var: u16) -> usize
    ensures { result ≡ slice_index groups.now.ranks var }
{
    if (var as usize) < groups.count() {
        groups.rank(var)
    } else {
        0
    }
}

// Adds the updates of a rank that may change a number.
fn push_rank(
    to: &mut Vec<Update>,
    groups: &Groups,
    rank: usize,
    ups: &[Update],
) -> Result<(), NoMemory>
    ensures { OnOk result (to.new.items ≡ to.old.items ++ of_rank groups.now.ranks rank ups.now) }
{
    for up in ups {
        if !is_still(up.op) && rank_of(groups, up.var) == rank {
            to.push(up.copy()?)?;
        }
    }
    Ok(())
}

fn ups_by_rank(alloc: Global, groups: &Groups, ups: &[Update]) -> Result<Updates, NoMemory>
    ensures { IfOk result (λ r. r ≡ by_ranks groups.now.ranks (length groups.now.order) ups.now) }
{
    let mut sorted = Vec::new(alloc);
    for rank in 0..groups.order().len() {
        push_rank(&mut sorted, groups, rank, ups)?;
    }
    Ok(Updates::new(sorted))
}

fn is_itself(part: (u16, Atom)) -> bool
    ensures { result ≡ is_itself part }
{
    match part.1 {
        Atom::Num(_) => false,
        Atom::Comp(comp) => comp == part.0,
    }
}

// An out without the parts that change nothing.
fn changes_of(alloc: Global, out: &Out) -> Result<Out, NoMemory>
    ensures { IfOk result (λ r. r ≡ changes out.now) }
{
    let mut parts = Vec::new(alloc);
    for part in out.parts() {
        if !is_itself(*part) {
            parts.push(*part)?;
        }
    }
    Ok(Out::new(parts))
}

fn all_changes(alloc: Global, outs: &[Out]) -> Result<Vec<Out>, NoMemory>
    ensures { IfOk result (λ r. r.items ≡ map changes outs.now) }
{
    let mut all = Vec::new(alloc);
    for out in outs {
        all.push(changes_of(alloc, out)?)?;
    }
    Ok(all)
}

fn compare_atoms(a: Atom, b: Atom) -> Ordering
    ensures { result ≡ atom_cmp a b }
{
    match a {
        Atom::Num(x) => match b {
            Atom::Num(y) => x.cmp(&y),
            Atom::Comp(_) => Ordering::Less,
        },
        Atom::Comp(x) => match b {
            Atom::Num(_) => Ordering::Greater,
            Atom::Comp(y) => x.cmp(&y),
        },
    }
}

fn compare_part(a: (u16, Atom), b: (u16, Atom)) -> Ordering
    ensures { result ≡ ordering_then (nat_cmp a.0 b.0) (atom_cmp a.1 b.1) }
{
    match a.0.cmp(&b.0) {
        Ordering::Less => Ordering::Less,
        Ordering::Greater => Ordering::Greater,
        Ordering::Equal => compare_atoms(a.1, b.1),
    }
}

fn compare_parts(a: &[(u16, Atom)], b: &[(u16, Atom)]) -> Ordering
    ensures { result ≡ parts_cmp a.now b.now }
{
    for (at, part) in a.iter().enumerate() {
        if at >= b.len() {
            return Ordering::Greater;
        }
        match compare_part(*part, b[at]) {
            Ordering::Less => return Ordering::Less,
            Ordering::Greater => return Ordering::Greater,
            Ordering::Equal => {}
        }
    }
    if a.len() < b.len() {
        Ordering::Less
    } else {
        Ordering::Equal
    }
}

fn compare(a: &Out, b: &Out) -> Ordering
    ensures { result ≡ parts_cmp a.now b.now }
{
    compare_parts(a.parts(), b.parts())
}

fn is_same(a: &Out, b: &Out) -> bool
    ensures { result ≡ eq_by_cmp parts_cmp a.now b.now }
{
    compare(a, b) == Ordering::Equal
}

// Sorted outs, each once.
fn once(mut outs: Vec<Out>) -> Outs
    requires { IsSorted parts_cmp outs.items }
    ensures { AreInOrder outs.items result }
{
    outs.dedup_by(|next, last| is_same(next, last));
    Outs::new(outs)
}

fn in_order(alloc: Global, mut outs: Vec<Out>) -> Result<Outs, NoMemory>
    ensures { IfOk result (AreInOrder outs.items) }
{
    outs.as_mut_slice()
        .sort_by(alloc, |left, right| compare(left, right))?;
    Ok(once(outs))
}

fn tidy_outs(alloc: Global, outs: &[Out]) -> Result<Outs, NoMemory>
    ensures { IfOk result (AreTidyOuts outs.now) }
{
    in_order(alloc, all_changes(alloc, outs)?)
}

/// The leaf as tables have it: no logs, no update that changes nothing, updates by rank, and outs in rising order, each once, without parts that change
/// nothing. Takes time in proportion to the ranks and the updates, and as a sort does to the outs. Refuses for memory alone.
pub fn tidy_of(alloc: Global, groups: &Groups, leaf: &Leaf) -> Result<Leaf, NoMemory>
    ensures { IfOk result (IsTidy groups.now.ranks (length groups.now.order) leaf.now) }
{
    match leaf {
        Leaf::Race => Ok(Leaf::Race),
        Leaf::Go(go) => Ok(Leaf::Go(Go {
            outs: tidy_outs(alloc, go.outs.items())?,
            ups: ups_by_rank(alloc, groups, go.ups.items())?,
            reads: 0,
            writes: 0,
        })),
    }
}
