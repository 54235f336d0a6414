//! Leaves whose outs give different packets.

ghost use Rattle.std.specs.Prelude.{◌≡◌, ◌<◌, ◌≤◌, ◌++◌, [], ◌∷◌, length, All, IfOk, OnOk};
ghost use Rattle.snap_core.specs.Tests.{OutFits};
ghost use Rattle.snap_diagrams.specs.Arena.{ExtendsArena};
ghost use Rattle.snap_diagrams.specs.Memos.{Remembers};
ghost use Rattle.snap_diagrams.specs.Bounds.{LeafIn};
ghost use Rattle.snap_diagrams.specs.Diagrams.{diagram, walk, answer, Only};
ghost use Rattle.snap_diagrams.specs.Leaves.{answer_of};
ghost use Rattle.snap_diagrams.specs.declared.leaf.Leaf.{Leaf};
ghost use Rattle.snap_diagrams.specs.declared.leaf.Leaf.TheVariants.{Go as Goes};
ghost use Rattle.snap_diagrams.specs.Picks.{IsWellFormedDiagram, sizes};
ghost use Rattle.snap_compose.specs.Substituted.{OnStores};
ghost use Rattle.snap_compose.specs.Splits.{IsSplit};
ghost use Rattle.snap_compose.specs.Sequence.{IsSettledLeaf};
ghost use Rattle.snap_compose.specs.ChainMemoed.{WiderFor, IsAskedWider};
ghost use Rattle.snap_compose.specs.Separating.{equal_below, any_equal, IsWider, IsGoOf};

use crate::pending_updates::split;
use crate::pulled_back::{as_term, atom_after, same_value};
use snap_context::context::Context;
use snap_core::NoMemory;
use snap_core::lists::{Out, Outs};
use snap_core::outs::copy_outs;
use snap_dep::groups::Groups;
use snap_diagrams::leaf::{Go, Leaf};
use snap_diagrams::node::Node;
use snap_diagrams::nodes::Nodes;
use snap_diagrams::only::only;
use snap_diagrams::pairs::Pairs;
use snap_diagrams::pick::{ite, look};
use snap_diagrams::pruning::{Decomposition, part_of};
use std::alloc::Global;

// One of two diagrams, by whether two outs give equal numbers at the first components.
fn where_equal(
    nodes: &mut Nodes<Leaf>,
    groups: &Groups,
    ctx: &Context,
    a: &Out,
    b: &Out,
    comps: u16,
    yes: u64,
    no: u64,
) -> Result<u64, NoMemory>
    requires yes { IsWellFormedDiagram groups.now ctx.now nodes.old yes }
    requires no { IsWellFormedDiagram groups.now ctx.now nodes.old no }
    requires a { OutFits (sizes groups.now ctx.now).comps a.now }
    requires b { OutFits (sizes groups.now ctx.now).comps b.now }
    requires comps { comps ≤ (sizes groups.now ctx.now).comps }
    ensures extends_arena { ExtendsArena nodes.old nodes.new }
    ensures number { IfOk result (λ d. d < length nodes.new) }
    ensures split { IfOk result (λ d. IsSplit groups.now ctx.now (equal_below a.now b.now comps) (diagram nodes.old yes) (diagram nodes.old no) (diagram nodes.new d)) }
{
    if comps == 0 {
        return Ok(yes);
    }
    let comp = comps - 1;
    let rest = where_equal(nodes, groups, ctx, a, b, comp, yes, no)?;
    let early = same_value(atom_after(a, comp), as_term(atom_after(b, comp)));
    split(nodes, groups, ctx, early, rest, no)
}

// One of two diagrams, by whether an out gives the packet of one of others.
fn where_any(
    nodes: &mut Nodes<Leaf>,
    groups: &Groups,
    ctx: &Context,
    out: &Out,
    others: &[Out],
    yes: u64,
    no: u64,
) -> Result<u64, NoMemory>
    requires yes { IsWellFormedDiagram groups.now ctx.now nodes.old yes }
    requires no { IsWellFormedDiagram groups.now ctx.now nodes.old no }
    requires out { OutFits (sizes groups.now ctx.now).comps out.now }
    requires others { All (OutFits (sizes groups.now ctx.now).comps) others.now }
    ensures extends_arena { ExtendsArena nodes.old nodes.new }
    ensures number { IfOk result (λ d. d < length nodes.new) }
    ensures split { IfOk result (λ d. IsSplit groups.now ctx.now (any_equal (sizes groups.now ctx.now).comps out.now others.now) (diagram nodes.old yes) (diagram nodes.old no) (diagram nodes.new d)) }
{
    match others.split_first() {
        None => Ok(no),
        Some((first, more)) => {
            let rest = where_any(nodes, groups, ctx, out, more, yes, no)?;
            where_equal(nodes, groups, ctx, out, first, ctx.comps(), yes, rest)
        }
    }
}

// The leaf with one out more.
fn wider(alloc: Global, go: &Go, out: &Out) -> Result<Leaf, NoMemory>
    ensures { IfOk result (λ l. l ≡ Goes (record go.now { outs = go.now.outs ++ out.now ∷ [] })) }
{
    let mut outs = copy_outs(alloc, go.outs.items())?;
    outs.push(out.copy()?)?;
    Ok(Leaf::Go(Go {
        outs: Outs::new(outs),
        ups: go.ups.copy(alloc)?,
        reads: go.reads,
        writes: go.writes,
    }))
}

// A copy of a leaf, unless two parts race there.
pub(crate) fn go_of(nodes: &Nodes<Leaf>, d: u64) -> Result<Option<Go>, NoMemory>
    requires { d < length nodes.now }
    ensures { IfOk result (λ o. (l : Leaf) → diagram nodes.now d ≡ Only l → IsGoOf l o) }
{
    match look(nodes, d) {
        Node::Ask { .. } => Ok(None),
        Node::Leaf(leaf) => match leaf {
            Leaf::Race => Ok(None),
            Leaf::Go(go) => Ok(Some(go.copy(nodes.allocator())?)),
        },
    }
}

// One out more at a leaf, where it gives a new packet.
fn widened(
    nodes: &mut Nodes<Leaf>,
    groups: &Groups,
    ctx: &Context,
    out: &Out,
    d: u64,
) -> Result<u64, NoMemory>
    requires d { IsWellFormedDiagram groups.now ctx.now nodes.old d }
    requires leaf { (l : Leaf) × (diagram nodes.old d ≡ Only l) }
    requires out { OutFits (sizes groups.now ctx.now).comps out.now }
    ensures extends_arena { ExtendsArena nodes.old nodes.new }
    ensures number { IfOk result (λ r. r < length nodes.new) }
    ensures wider { IfOk result (λ r. IsWider groups.now ctx.now (out.now ∷ []) (diagram nodes.old d) (diagram nodes.new r)) }
{
    match go_of(nodes, d)? {
        None => Ok(d),
        Some(go) => {
            let leaf = wider(nodes.allocator(), &go, out)?;
            let more = only(nodes, groups, ctx, leaf)?;
            where_any(nodes, groups, ctx, out, go.outs.items(), d, more)
        }
    }
}

// One out more at each leaf, where it gives a new packet, which may be remembered.
#[cycle(added)]
fn added(
    nodes: &mut Nodes<Leaf>,
    groups: &Groups,
    ctx: &Context,
    memo: &mut Pairs,
    out: &Out,
    d: u64,
) -> Result<u64, NoMemory>
    requires { IsAskedWider groups.now ctx.now out.now nodes.old memo.old d }
    ensures extends_arena { ExtendsArena nodes.old nodes.new }
    ensures number { IfOk result (λ r. r < length nodes.new) }
    ensures wider { IfOk result (λ r. IsWider groups.now ctx.now (out.now ∷ []) (diagram nodes.old d) (diagram nodes.new r)) }
    ensures memo { OnOk result (Remembers (WiderFor groups.now ctx.now out.now nodes.new) memo.new) }
{
    if let Some(r) = memo.get(d, 0) {
        return Ok(r);
    }
    let r = added_anew(nodes, groups, ctx, memo, out, d)?;
    memo.put(d, 0, r)?;
    Ok(r)
}

#[cycle(added)]
fn added_anew(
    nodes: &mut Nodes<Leaf>,
    groups: &Groups,
    ctx: &Context,
    memo: &mut Pairs,
    out: &Out,
    d: u64,
) -> Result<u64, NoMemory>
    requires { IsAskedWider groups.now ctx.now out.now nodes.old memo.old d }
    ensures extends_arena { ExtendsArena nodes.old nodes.new }
    ensures number { IfOk result (λ r. r < length nodes.new) }
    ensures wider { IfOk result (λ r. IsWider groups.now ctx.now (out.now ∷ []) (diagram nodes.old d) (diagram nodes.new r)) }
    ensures memo { OnOk result (Remembers (WiderFor groups.now ctx.now out.now nodes.new) memo.new) }
{
    match part_of(nodes, d)? {
        Decomposition::Whole => widened(nodes, groups, ctx, out, d),
        Decomposition::Split { test, yes, no } => {
            let y = added(nodes, groups, ctx, memo, out, yes)?;
            let n = added(nodes, groups, ctx, memo, out, no)?;
            ite(nodes, groups, ctx, test, y, n)
        }
    }
}

// More outs at each leaf.
fn all_added(
    nodes: &mut Nodes<Leaf>,
    groups: &Groups,
    ctx: &Context,
    outs: &[Out],
    d: u64,
) -> Result<u64, NoMemory>
    requires d { IsWellFormedDiagram groups.now ctx.now nodes.old d }
    requires outs { All (OutFits (sizes groups.now ctx.now).comps) outs.now }
    ensures extends_arena { ExtendsArena nodes.old nodes.new }
    ensures number { IfOk result (λ r. r < length nodes.new) }
    ensures wider { IfOk result (λ r. IsWider groups.now ctx.now outs.now (diagram nodes.old d) (diagram nodes.new r)) }
{
    match outs.split_first() {
        None => Ok(d),
        Some((first, more)) => {
            let mut memo = Pairs::new(nodes.allocator());
            let w = added(nodes, groups, ctx, &mut memo, first, d)?;
            all_added(nodes, groups, ctx, more, w)
        }
    }
}

/// A leaf's diagram with tests that decide which of its outs give equal packets: the answer is the leaf's, and at each
/// leaf two outs give different packets. Refuses for memory alone.
pub fn separate(
    nodes: &mut Nodes<Leaf>,
    groups: &Groups,
    ctx: &Context,
    go: Go,
) -> Result<u64, NoMemory>
    requires { LeafIn (sizes groups.now ctx.now) (Goes go) }
    ensures extends_arena { ExtendsArena nodes.old nodes.new }
    ensures diagram { IfOk result (IsWellFormedDiagram groups.now ctx.now nodes.new) }
    ensures answer { IfOk result (λ r. OnStores ctx.now (λ m k. answer nodes.new r m k ≡ answer_of (Goes go) k)) }
    ensures settled { IfOk result (λ r. OnStores ctx.now (λ m k. IsSettledLeaf (walk (diagram nodes.new r) m k) k)) }
{
    let alloc = nodes.allocator();
    let bare = Leaf::Go(Go {
        outs: Outs::new(Vec::new(alloc)),
        ups: go.ups.copy(alloc)?,
        reads: go.reads,
        writes: go.writes,
    });
    let d = only(nodes, groups, ctx, bare)?;
    all_added(nodes, groups, ctx, go.outs.items(), d)
}
