//! A leaf, and then a diagram from each packet that it gives.

ghost use Rattle.std.specs.Prelude.{◌≡◌, ◌<◌, length, All, IfOk, IsTrue, OnOk};
ghost use Rattle.snap_core.specs.Tests.{OutFits};
ghost use Rattle.snap_diagrams.specs.Arena.{ExtendsArena};
ghost use Rattle.snap_diagrams.specs.Memos.{Remembers};
ghost use Rattle.snap_diagrams.specs.Bounds.{LeafIn, UpdateIn};
ghost use Rattle.snap_diagrams.specs.Diagrams.{diagram, Only};
ghost use Rattle.snap_diagrams.specs.declared.leaf.Leaf.{Leaf};
ghost use Rattle.snap_diagrams.specs.declared.leaf.Leaf.TheVariants.{Go as Goes};
ghost use Rattle.snap_diagrams.specs.Picks.{IsWellFormedDiagram, sizes};
ghost use Rattle.snap_compose.specs.ChainMemoed.{PrefixedFor, IsAskedPrefix, SequelFor, IsAskedSequel};
ghost use Rattle.snap_compose.specs.Marks.{AreMarked};
ghost use Rattle.snap_compose.specs.Spread.{bare_leaf, IsBehindLeaf, IsBehindOf, IsRun, IsPrefixed, IsSpread, IsSequel, OnlySends};

use crate::joining::join;
use crate::marks::Marks;
use crate::separating::go_of;
use crate::substituted::after_marked;
use crate::summing::{push_copies, push_updates};
use snap_context::context::Context;
use snap_core::NoMemory;
use snap_core::lists::{Out, Outs, Updates};
use snap_core::policy::Update;
use snap_dep::groups::Groups;
use snap_diagrams::leaf::{Go, Leaf};
use snap_diagrams::node::Node;
use snap_diagrams::nodes::Nodes;
use snap_diagrams::only::only;
use snap_diagrams::pairs::Pairs;
use snap_diagrams::pick::{ite, look};
use snap_diagrams::pruning::{Decomposition, part_of};
use std::alloc::Global;

// The leaf that does nothing.
fn idle(nodes: &mut Nodes<Leaf>, groups: &Groups, ctx: &Context) -> Result<u64, NoMemory>
    ensures extends_arena { ExtendsArena nodes.old nodes.new }
    ensures diagram { IfOk result (IsWellFormedDiagram groups.now ctx.now nodes.new) }
    ensures bare { IfOk result (λ d. diagram nodes.new d ≡ Only bare_leaf) }
{
    let alloc = nodes.allocator();
    let nothing = Leaf::Go(Go {
        outs: Outs::new(Vec::new(alloc)),
        ups: Updates::new(Vec::new(alloc)),
        reads: 0,
        writes: 0,
    });
    only(nodes, groups, ctx, nothing)
}

// A diagram behind each out and the updates, side by side. Halves are joined with halves, so each out's packets are
// copied once for each halving, and calls are no deeper than that. An out alone is joined with the leaf that does
// nothing, which lets go of what isn't logged; where leaves log all that they update, that changes nothing.
fn all_after(
    nodes: &mut Nodes<Leaf>,
    groups: &Groups,
    ctx: &Context,
    marks: &Marks,
    outs: &[Out],
    ups: &[Update],
    d: u64,
) -> Result<u64, NoMemory>
    requires d { IsWellFormedDiagram groups.now ctx.now nodes.old d }
    requires outs { All (OutFits (sizes groups.now ctx.now).comps) outs.now }
    requires ups { All (UpdateIn (sizes groups.now ctx.now)) ups.now }
    requires marked { AreMarked nodes.old marks.now }
    ensures extends_arena { ExtendsArena nodes.old nodes.new }
    ensures number { IfOk result (λ r. r < length nodes.new) }
    ensures run { IfOk result (λ r. IsRun groups.now ctx.now outs.now ups.now (diagram nodes.old d) (diagram nodes.new r)) }
{
    if outs.len() <= 1 {
        return match outs.split_first() {
            None => idle(nodes, groups, ctx),
            Some((out, _)) => {
                let one = after_marked(nodes, groups, ctx, marks, out, ups, d)?;
                if marks.logs_updates(d) {
                    return Ok(one);
                }
                let start = idle(nodes, groups, ctx)?;
                join(nodes, groups, ctx, start, one)
            }
        };
    }
    let (front, back) = outs.split_at(outs.len() / 2);
    let first = all_after(nodes, groups, ctx, marks, front, ups, d)?;
    let second = all_after(nodes, groups, ctx, marks, back, ups, d)?;
    join(nodes, groups, ctx, first, second)
}

// What a leaf does behind the updates and logs of another. Leaves stay, so there is room for the updates of both and no
// more.
fn go_behind(alloc: Global, go: &Go, later: &Go) -> Result<Leaf, NoMemory>
    ensures { IfOk result (IsBehindLeaf go.now later.now) }
{
    let (first, second) = (go.ups.items(), later.ups.items());
    let mut ups = Vec::with_capacity(alloc, first.len().saturating_add(second.len()))?;
    push_copies(&mut ups, first)?;
    push_updates(&mut ups, second)?;
    Ok(Leaf::Go(Go {
        outs: later.outs.copy(alloc)?,
        ups: Updates::new(ups),
        reads: go.reads | later.reads,
        writes: go.writes | later.writes,
    }))
}

// A leaf behind the updates and logs of another, unless two parts race there.
fn leaf_behind(nodes: &Nodes<Leaf>, go: &Go, d: u64) -> Result<Option<Leaf>, NoMemory>
    requires { d < length nodes.now }
    ensures { IfOk result (λ o. (l : Leaf) → diagram nodes.now d ≡ Only l → IsBehindOf go.now l o) }
{
    match look(nodes, d) {
        Node::Ask { .. } => Ok(None),
        Node::Leaf(leaf) => match leaf {
            Leaf::Race => Ok(None),
            Leaf::Go(later) => Ok(Some(go_behind(nodes.allocator(), go, later)?)),
        },
    }
}

// Each leaf behind the updates and logs of another, which may be remembered.
#[cycle(prefixed)]
fn prefixed(
    nodes: &mut Nodes<Leaf>,
    groups: &Groups,
    ctx: &Context,
    memo: &mut Pairs,
    go: &Go,
    d: u64,
) -> Result<u64, NoMemory>
    requires { IsAskedPrefix groups.now ctx.now go.now nodes.old memo.old d }
    ensures extends_arena { ExtendsArena nodes.old nodes.new }
    ensures number { IfOk result (λ r. r < length nodes.new) }
    ensures prefixed { IfOk result (λ r. IsPrefixed groups.now ctx.now go.now (diagram nodes.old d) (diagram nodes.new r)) }
    ensures memo { OnOk result (Remembers (PrefixedFor groups.now ctx.now go.now nodes.new) memo.new) }
{
    if let Some(r) = memo.get(d, 0) {
        return Ok(r);
    }
    let r = prefixed_anew(nodes, groups, ctx, memo, go, d)?;
    memo.put(d, 0, r)?;
    Ok(r)
}

#[cycle(prefixed)]
fn prefixed_anew(
    nodes: &mut Nodes<Leaf>,
    groups: &Groups,
    ctx: &Context,
    memo: &mut Pairs,
    go: &Go,
    d: u64,
) -> Result<u64, NoMemory>
    requires { IsAskedPrefix groups.now ctx.now go.now nodes.old memo.old d }
    ensures extends_arena { ExtendsArena nodes.old nodes.new }
    ensures number { IfOk result (λ r. r < length nodes.new) }
    ensures prefixed { IfOk result (λ r. IsPrefixed groups.now ctx.now go.now (diagram nodes.old d) (diagram nodes.new r)) }
    ensures memo { OnOk result (Remembers (PrefixedFor groups.now ctx.now go.now nodes.new) memo.new) }
{
    match part_of(nodes, d)? {
        Decomposition::Whole => match leaf_behind(nodes, go, d)? {
            None => Ok(d),
            Some(leaf) => only(nodes, groups, ctx, leaf),
        },
        Decomposition::Split { test, yes, no } => {
            let y = prefixed(nodes, groups, ctx, memo, go, yes)?;
            let n = prefixed(nodes, groups, ctx, memo, go, no)?;
            ite(nodes, groups, ctx, test, y, n)
        }
    }
}

// Whether a leaf has no updates and logs nothing.
fn only_sends(go: &Go) -> bool
    ensures { IsTrue result → OnlySends go.now }
{
    go.reads == 0 && go.writes == 0 && go.ups.items().is_empty()
}

// Each leaf behind the updates and logs of another: as it is where that one has none.
fn put_behind(
    nodes: &mut Nodes<Leaf>,
    groups: &Groups,
    ctx: &Context,
    go: &Go,
    d: u64,
) -> Result<u64, NoMemory>
    requires d { IsWellFormedDiagram groups.now ctx.now nodes.old d }
    requires go { LeafIn (sizes groups.now ctx.now) (Goes go.now) }
    ensures extends_arena { ExtendsArena nodes.old nodes.new }
    ensures number { IfOk result (λ r. r < length nodes.new) }
    ensures prefixed { IfOk result (λ r. IsPrefixed groups.now ctx.now go.now (diagram nodes.old d) (diagram nodes.new r)) }
{
    if only_sends(go) {
        return Ok(d);
    }
    let mut memo = Pairs::new(nodes.allocator());
    prefixed(nodes, groups, ctx, &mut memo, go, d)
}

/// A leaf, and then a diagram, where the outs give different packets or the diagram writes nothing.
/// Refuses for memory alone.
pub fn spread(
    nodes: &mut Nodes<Leaf>,
    groups: &Groups,
    ctx: &Context,
    marks: &Marks,
    go: &Go,
    d: u64,
) -> Result<u64, NoMemory>
    requires d { IsWellFormedDiagram groups.now ctx.now nodes.old d }
    requires go { LeafIn (sizes groups.now ctx.now) (Goes go.now) }
    requires marked { AreMarked nodes.old marks.now }
    ensures extends_arena { ExtendsArena nodes.old nodes.new }
    ensures number { IfOk result (λ r. r < length nodes.new) }
    ensures spread { IfOk result (λ r. IsSpread groups.now ctx.now go.now (diagram nodes.old d) (diagram nodes.new r)) }
{
    let all = all_after(
        nodes,
        groups,
        ctx,
        marks,
        go.outs.items(),
        go.ups.items(),
        d,
    )?;
    put_behind(nodes, groups, ctx, go, all)
}

// A diagram whose leaves are settled, and then another, which may be remembered.
#[cycle(followed)]
fn followed(
    nodes: &mut Nodes<Leaf>,
    groups: &Groups,
    ctx: &Context,
    marks: &Marks,
    memo: &mut Pairs,
    a: u64,
    d: u64,
) -> Result<u64, NoMemory>
    requires { IsAskedSequel groups.now ctx.now d nodes.old marks.now memo.old a }
    ensures extends_arena { ExtendsArena nodes.old nodes.new }
    ensures number { IfOk result (λ r. r < length nodes.new) }
    ensures sequel { IfOk result (λ r. IsSequel groups.now ctx.now (diagram nodes.old d) (diagram nodes.old a) (diagram nodes.new r)) }
    ensures memo { OnOk result (Remembers (SequelFor groups.now ctx.now d nodes.new) memo.new) }
{
    if let Some(r) = memo.get(a, 0) {
        return Ok(r);
    }
    let r = followed_anew(nodes, groups, ctx, marks, memo, a, d)?;
    memo.put(a, 0, r)?;
    Ok(r)
}

#[cycle(followed)]
fn followed_anew(
    nodes: &mut Nodes<Leaf>,
    groups: &Groups,
    ctx: &Context,
    marks: &Marks,
    memo: &mut Pairs,
    a: u64,
    d: u64,
) -> Result<u64, NoMemory>
    requires { IsAskedSequel groups.now ctx.now d nodes.old marks.now memo.old a }
    ensures extends_arena { ExtendsArena nodes.old nodes.new }
    ensures number { IfOk result (λ r. r < length nodes.new) }
    ensures sequel { IfOk result (λ r. IsSequel groups.now ctx.now (diagram nodes.old d) (diagram nodes.old a) (diagram nodes.new r)) }
    ensures memo { OnOk result (Remembers (SequelFor groups.now ctx.now d nodes.new) memo.new) }
{
    match part_of(nodes, a)? {
        Decomposition::Whole => match go_of(nodes, a)? {
            None => Ok(a),
            Some(go) => spread(nodes, groups, ctx, marks, &go, d),
        },
        Decomposition::Split { test, yes, no } => {
            let y = followed(nodes, groups, ctx, marks, memo, yes, d)?;
            let n = followed(nodes, groups, ctx, marks, memo, no, d)?;
            ite(nodes, groups, ctx, test, y, n)
        }
    }
}

/// A diagram whose leaves are settled, and then another. Refuses for memory alone.
pub fn spread_on(
    nodes: &mut Nodes<Leaf>,
    groups: &Groups,
    ctx: &Context,
    marks: &Marks,
    a: u64,
    d: u64,
) -> Result<u64, NoMemory>
    requires a { IsWellFormedDiagram groups.now ctx.now nodes.old a }
    requires d { IsWellFormedDiagram groups.now ctx.now nodes.old d }
    requires marked { AreMarked nodes.old marks.now }
    ensures extends_arena { ExtendsArena nodes.old nodes.new }
    ensures number { IfOk result (λ r. r < length nodes.new) }
    ensures sequel { IfOk result (λ r. IsSequel groups.now ctx.now (diagram nodes.old d) (diagram nodes.old a) (diagram nodes.new r)) }
{
    let mut memo = Pairs::new(nodes.allocator());
    followed(nodes, groups, ctx, marks, &mut memo, a, d)
}
