//! A diagram behind an out and updates.

ghost use Rattle.std.specs.Prelude.{◌≡◌, ◌<◌, [], ℕ, List, length, map, All, IfOk, IsTrue, OnOk};
ghost use Rattle.snap_core.specs.Arrays.{updates};
ghost use Rattle.snap_core.specs.Tests.{OutFits, after_out, results};
ghost use Rattle.snap_diagrams.specs.Arena.{ExtendsArena};
ghost use Rattle.snap_diagrams.specs.Memos.{Remembers};
ghost use Rattle.snap_diagrams.specs.declared.node.Node.{Node};
ghost use Rattle.snap_diagrams.specs.Bounds.{LeafIn, UpdateIn};
ghost use Rattle.snap_diagrams.specs.Diagrams.{diagram, answer, Only};
ghost use Rattle.snap_diagrams.specs.Leaves.{outcome_of};
ghost use Rattle.snap_diagrams.specs.declared.leaf.Leaf.{Leaf};
ghost use Rattle.snap_diagrams.specs.Picks.{IsWellFormedDiagram, sizes};
ghost use Rattle.snap_compose.specs.PulledBack.{early_update, with_part, IsEarlyOut, IsEarlyLeaf};
ghost use Rattle.snap_compose.specs.Substituted.{OnStores, late, IsLate};
ghost use Rattle.snap_compose.specs.ChainMemoed.{LateFor, IsAskedLate};
ghost use Rattle.snap_compose.specs.Marks.{AreMarked, LeafLogsUpdates};
ghost use Rattle.snap_compose.specs.Untouched.{IsUntouched};

use crate::marks::{Marks, marks_from, misses_updates};
use crate::ordered::ordered;
use crate::pending_updates::split_after;
use crate::pulled_back::{atom_after, atom_before, test_before, update_before};
use snap_context::context::Context;
use snap_core::NoMemory;
use snap_core::lists::{Out, Outs, Updates};
use snap_core::policy::{Atom, Update};
use snap_dep::groups::Groups;
use snap_diagrams::leaf::{Go, Leaf};
use snap_diagrams::node::Node;
use snap_diagrams::nodes::Nodes;
use snap_diagrams::only::only;
use snap_diagrams::pairs::Pairs;
use snap_diagrams::pick::look;
use snap_diagrams::pruning::{Decomposition, part_of};
use std::alloc::Global;

// Adds what a component is set to, unless it keeps its own value.
fn put_part(parts: &mut Vec<(u16, Atom)>, comp: u16, atom: Atom) -> Result<(), NoMemory>
    ensures { OnOk result (parts.new.items ≡ with_part parts.old.items comp atom) }
{
    match atom {
        Atom::Num(_) => parts.push((comp, atom))?,
        Atom::Comp(own) => {
            if own != comp {
                parts.push((comp, atom))?;
            }
        }
    }
    Ok(())
}

// An out behind another, as one: the components that change.
fn out_before(alloc: Global, comps: u16, out: &Out, later: &Out) -> Result<Out, NoMemory>
    requires out { OutFits comps out.now }
    requires later { OutFits comps later.now }
    ensures fits { IfOk result (OutFits comps) }
    ensures both { IfOk result (IsEarlyOut comps out.now later.now) }
{
    let mut parts = Vec::new(alloc);
    for comp in 0..comps {
        put_part(&mut parts, comp, atom_before(out, atom_after(later, comp)))?;
    }
    Ok(Out::new(parts))
}

fn outs_before(alloc: Global, comps: u16, out: &Out, later: &[Out]) -> Result<Outs, NoMemory>
    requires out { OutFits comps out.now }
    requires later { All (OutFits comps) later.now }
    ensures fits { IfOk result (λ outs. All (OutFits comps) outs) }
    ensures both { IfOk result (λ outs. (k : List ℕ) → length k ≡ comps → results outs k ≡ results later.now (after_out out.now k)) }
{
    let mut outs = Vec::with_capacity(alloc, later.len())?;
    for one in later {
        outs.push(out_before(alloc, comps, out, one)?)?;
    }
    Ok(Outs::new(outs))
}

fn updates_before(alloc: Global, out: &Out, later: &[Update]) -> Result<Updates, NoMemory>
    ensures { IfOk result (λ updates. updates ≡ map (early_update out.now) later.now) }
{
    let mut updates = Vec::with_capacity(alloc, later.len())?;
    for update in later {
        updates.push(update_before(alloc, out, update)?)?;
    }
    Ok(Updates::new(updates))
}

fn leaf_before(
    nodes: &Nodes<Leaf>,
    groups: &Groups,
    ctx: &Context,
    out: &Out,
    d: u64,
) -> Result<Leaf, NoMemory>
    requires d { IsWellFormedDiagram groups.now ctx.now nodes.now d }
    requires out { OutFits (sizes groups.now ctx.now).comps out.now }
    ensures fits { IfOk result (LeafIn (sizes groups.now ctx.now)) }
    ensures leaf { IfOk result (λ r. (l : Leaf) → diagram nodes.now d ≡ Only l → IsEarlyLeaf (sizes groups.now ctx.now).comps out.now l r) }
    ensures logs { IfOk result (λ r. (l : Leaf) → diagram nodes.now d ≡ Only l → LeafLogsUpdates l → LeafLogsUpdates r) }
{
    match look(nodes, d) {
        Node::Ask { .. } => Ok(Leaf::Race),
        Node::Leaf(leaf) => match leaf {
            Leaf::Race => Ok(Leaf::Race),
            Leaf::Go(go) => {
                let alloc = nodes.allocator();
                Ok(Leaf::Go(Go {
                    outs: outs_before(alloc, ctx.comps(), out, go.outs.items())?,
                    ups: updates_before(alloc, out, go.ups.items())?,
                    reads: go.reads,
                    writes: go.writes,
                }))
            }
        },
    }
}

// Whether a diagram stays as it is: the out sets nothing, and no test is of an array that the updates change.
fn stays(marks: &Marks, out: &Out, ups: &[Update], d: u64) -> bool
    ensures { IsTrue result → (ns : List (Node Leaf)) → AreMarked ns marks.now → (out.now ≡ []) × IsUntouched ups.now (diagram ns d) }
{
    out.parts().is_empty() && misses_updates(marks.of(d), ups)
}

// A diagram behind an out and updates, which may be remembered.
#[cycle(later)]
fn later(
    nodes: &mut Nodes<Leaf>,
    groups: &Groups,
    ctx: &Context,
    marks: &Marks,
    memo: &mut Pairs,
    out: &Out,
    ups: &[Update],
    d: u64,
) -> Result<u64, NoMemory>
    requires { IsAskedLate groups.now ctx.now out.now ups.now nodes.old marks.now memo.old d }
    ensures extends_arena { ExtendsArena nodes.old nodes.new }
    ensures number { IfOk result (λ r. r < length nodes.new) }
    ensures late { IfOk result (λ r. IsLate groups.now ctx.now out.now ups.now (diagram nodes.old d) (diagram nodes.new r)) }
    ensures memo { OnOk result (Remembers (LateFor groups.now ctx.now out.now ups.now nodes.new) memo.new) }
{
    if stays(marks, out, ups, d) {
        return Ok(d);
    }
    if let Some(r) = memo.get(d, 0) {
        return Ok(r);
    }
    let r = later_anew(nodes, groups, ctx, marks, memo, out, ups, d)?;
    memo.put(d, 0, r)?;
    Ok(r)
}

#[cycle(later)]
fn later_anew(
    nodes: &mut Nodes<Leaf>,
    groups: &Groups,
    ctx: &Context,
    marks: &Marks,
    memo: &mut Pairs,
    out: &Out,
    ups: &[Update],
    d: u64,
) -> Result<u64, NoMemory>
    requires { IsAskedLate groups.now ctx.now out.now ups.now nodes.old marks.now memo.old d }
    ensures extends_arena { ExtendsArena nodes.old nodes.new }
    ensures number { IfOk result (λ r. r < length nodes.new) }
    ensures late { IfOk result (λ r. IsLate groups.now ctx.now out.now ups.now (diagram nodes.old d) (diagram nodes.new r)) }
    ensures memo { OnOk result (Remembers (LateFor groups.now ctx.now out.now ups.now nodes.new) memo.new) }
{
    match part_of(nodes, d)? {
        Decomposition::Whole => {
            let leaf = leaf_before(nodes, groups, ctx, out, d)?;
            only(nodes, groups, ctx, leaf)
        }
        Decomposition::Split { test, yes, no } => {
            let y = later(nodes, groups, ctx, marks, memo, out, ups, yes)?;
            let n = later(nodes, groups, ctx, marks, memo, out, ups, no)?;
            let early = test_before(nodes.allocator(), out, &test)?;
            split_after(nodes, groups, ctx, ups, early, y, n)
        }
    }
}

// A diagram behind an out and updates, by marks: as it is where it tests nothing that they touch.
pub(crate) fn after_marked(
    nodes: &mut Nodes<Leaf>,
    groups: &Groups,
    ctx: &Context,
    marks: &Marks,
    out: &Out,
    ups: &[Update],
    d: u64,
) -> Result<u64, NoMemory>
    requires d { IsWellFormedDiagram groups.now ctx.now nodes.old d }
    requires out { OutFits (sizes groups.now ctx.now).comps out.now }
    requires ups { All (UpdateIn (sizes groups.now ctx.now)) ups.now }
    requires marked { AreMarked nodes.old marks.now }
    ensures extends_arena { ExtendsArena nodes.old nodes.new }
    ensures number { IfOk result (λ r. r < length nodes.new) }
    ensures late { IfOk result (λ r. IsLate groups.now ctx.now out.now ups.now (diagram nodes.old d) (diagram nodes.new r)) }
{
    if stays(marks, out, ups, d) {
        return Ok(d);
    }
    let ups = ordered(nodes.allocator(), ups)?;
    let mut memo = Pairs::new(nodes.allocator());
    later(nodes, groups, ctx, marks, &mut memo, out, &ups, d)
}

/// A diagram behind an out and updates that are not yet done: the answer, taken at the store after the updates, is the
/// outcome of `d` on that store and on the packet after the out. Refuses for memory alone.
pub fn after(
    nodes: &mut Nodes<Leaf>,
    groups: &Groups,
    ctx: &Context,
    out: &Out,
    ups: &[Update],
    d: u64,
) -> Result<u64, NoMemory>
    requires d { IsWellFormedDiagram groups.now ctx.now nodes.old d }
    requires out { OutFits (sizes groups.now ctx.now).comps out.now }
    requires ups { All (UpdateIn (sizes groups.now ctx.now)) ups.now }
    ensures extends_arena { ExtendsArena nodes.old nodes.new }
    ensures diagram { IfOk result (IsWellFormedDiagram groups.now ctx.now nodes.new) }
    ensures late { IfOk result (λ r. OnStores ctx.now (λ m k. outcome_of (answer nodes.new r m k) (updates m ups.now k) ≡ late (diagram nodes.old d) out.now ups.now m k)) }
{
    let marks = marks_from(nodes, &[d])?;
    after_marked(nodes, groups, ctx, &marks, out, ups, d)
}
