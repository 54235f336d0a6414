//! A test before two diagrams.

ghost use Rattle.std.specs.Prelude.{◌≡◌, ◌<◌, ◌≤◌, ℕ, List, length, IfOk, OnOk, true, false, if◌then◌else◌};
ghost use Rattle.snap_core.specs.Arrays.{Arrays};
ghost use Rattle.snap_core.specs.Tests.{passes};
ghost use Rattle.snap_diagrams.specs.Arena.{ExtendsArena};
ghost use Rattle.snap_diagrams.specs.Memos.{Remembers};
ghost use Rattle.snap_diagrams.specs.Bounds.{Sizes, TestIn};
ghost use Rattle.snap_diagrams.specs.Contexts.{Under};
ghost use Rattle.snap_diagrams.specs.Diagrams.{diagram, walk, answer, IsNodeOf};
ghost use Rattle.snap_diagrams.specs.Memoed.{PickedFor, IsAskedPick};
ghost use Rattle.snap_diagrams.specs.Order.{Above};
ghost use Rattle.snap_diagrams.specs.Picks.{IsDiagram, Where, Anywhere, IsSide, IsPick, StartsWith, IsLeast, IsLower, sizes, IsWellFormedDiagram};
ghost use Rattle.snap_diagrams.specs.Pruned.{IsShaped};

use crate::equal::same_test;
use crate::leaf::Leaf;
use crate::node::Node;
use crate::nodes::Nodes;
use crate::order::compare;
use crate::pairs::Pairs;
use crate::subject::entailed;
use snap_context::context::Context;
use snap_core::NoMemory;
use snap_core::policy::Test;
use snap_dep::groups::Groups;
use std::cmp::Ordering;

/// The node of a number.
pub fn look(nodes: &Nodes<Leaf>, d: u64) -> &Node<Leaf>
    requires { d < length nodes.now }
    ensures { IsNodeOf nodes.now d result.now }
{
    nodes.get(d)
}

/// The diagram where a test gives an answer, as far as its first tests ask the same subject.
pub fn side(nodes: &Nodes<Leaf>, d: u64, test: &Test, yes: bool) -> u64
    requires { d < length nodes.now }
    ensures within { result ≤ d }
    ensures falls { StartsWith test.now (diagram nodes.now d) → result < d }
    ensures side { (ranks : List ℕ) (s : Sizes) → IsDiagram ranks s (diagram nodes.now d) → IsSide ranks s test.now yes (diagram nodes.now d) (diagram nodes.now result) }
{
    match look(nodes, d) {
        Node::Leaf(_) => d,
        Node::Ask {
            test: other,
            yes: y,
            no: n,
        } => match entailed(test, yes, other) {
            Some(true) => side(nodes, *y, test, yes),
            Some(false) => side(nodes, *n, test, yes),
            None => d,
        },
    }
}

/// The lesser of a test and the first test of a diagram.
pub fn lower<'a>(
    nodes: &'a Nodes<Leaf>,
    groups: &Groups,
    ctx: &Context,
    test: &'a Test,
    d: u64,
) -> &'a Test
    requires d { IsWellFormedDiagram groups.now ctx.now nodes.now d }
    requires test { TestIn (sizes groups.now ctx.now) test.now }
    ensures { IsLower groups.now.ranks (sizes groups.now ctx.now) test.now (diagram nodes.now d) result.now }
{
    match look(nodes, d) {
        Node::Leaf(_) => test,
        Node::Ask {
            test: other,
            yes: _,
            no: _,
        } => match compare(groups, test, other) {
            Ordering::Greater => other,
            _ => test,
        },
    }
}

// The least of a test and the first tests of two diagrams.
fn least<'a>(
    nodes: &'a Nodes<Leaf>,
    groups: &Groups,
    ctx: &Context,
    test: &'a Test,
    a: u64,
    b: u64,
) -> &'a Test
    requires a { IsWellFormedDiagram groups.now ctx.now nodes.now a }
    requires b { IsWellFormedDiagram groups.now ctx.now nodes.now b }
    requires test { TestIn (sizes groups.now ctx.now) test.now }
    ensures { IsLeast groups.now.ranks (sizes groups.now ctx.now) test.now (diagram nodes.now a) (diagram nodes.now b) result.now }
{
    let first = lower(nodes, groups, ctx, test, a);
    lower(nodes, groups, ctx, first, b)
}

/// A test before two diagrams that begin above it. Refuses for memory alone.
pub fn ask(
    nodes: &mut Nodes<Leaf>,
    groups: &Groups,
    ctx: &Context,
    test: Test,
    yes: u64,
    no: u64,
) -> Result<u64, NoMemory>
    requires yes { IsWellFormedDiagram groups.now ctx.now nodes.old yes }
    requires no { IsWellFormedDiagram groups.now ctx.now nodes.old no }
    requires test { TestIn (sizes groups.now ctx.now) test }
    requires above_yes { Above groups.now.ranks test (diagram nodes.old yes) }
    requires above_no { Above groups.now.ranks test (diagram nodes.old no) }
    ensures extends_arena { ExtendsArena nodes.old nodes.new }
    ensures number { IfOk result (λ d. d < length nodes.new) }
    ensures pick { IfOk result (λ d. IsPick groups.now.ranks (sizes groups.now ctx.now) Anywhere test (diagram nodes.old yes) (diagram nodes.old no) (diagram nodes.new d)) }
    ensures shape { IfOk result (λ d. IsShaped test (diagram nodes.old yes) (diagram nodes.old no) (diagram nodes.new d)) }
{
    nodes.node(test, yes, no)
}

/// A test before two diagrams. Refuses for memory alone.
pub fn pick(
    nodes: &mut Nodes<Leaf>,
    groups: &Groups,
    ctx: &Context,
    test: &Test,
    a: u64,
    b: u64,
) -> Result<u64, NoMemory>
    requires a { IsWellFormedDiagram groups.now ctx.now nodes.old a }
    requires b { IsWellFormedDiagram groups.now ctx.now nodes.old b }
    requires test { TestIn (sizes groups.now ctx.now) test.now }
    ensures extends_arena { ExtendsArena nodes.old nodes.new }
    ensures number { IfOk result (λ d. d < length nodes.new) }
    ensures pick { IfOk result (λ d. IsPick groups.now.ranks (sizes groups.now ctx.now) Anywhere test.now (diagram nodes.old a) (diagram nodes.old b) (diagram nodes.new d)) }
{
    let mut memo = Pairs::new(nodes.allocator());
    picked_anew(nodes, groups, ctx, &mut memo, test, a, b)
}

// A test before two diagrams, which may be remembered.
#[cycle(picked)]
fn picked(
    nodes: &mut Nodes<Leaf>,
    groups: &Groups,
    ctx: &Context,
    memo: &mut Pairs,
    test: &Test,
    a: u64,
    b: u64,
) -> Result<u64, NoMemory>
    requires { IsAskedPick groups.now ctx.now test.now nodes.old memo.old a b }
    ensures extends_arena { ExtendsArena nodes.old nodes.new }
    ensures number { IfOk result (λ d. d < length nodes.new) }
    ensures pick { IfOk result (λ d. IsPick groups.now.ranks (sizes groups.now ctx.now) Anywhere test.now (diagram nodes.old a) (diagram nodes.old b) (diagram nodes.new d)) }
    ensures memo { OnOk result (Remembers (PickedFor groups.now.ranks (sizes groups.now ctx.now) test.now nodes.new) memo.new) }
{
    if let Some(d) = memo.get(a, b) {
        return Ok(d);
    }
    let d = picked_anew(nodes, groups, ctx, memo, test, a, b)?;
    memo.put(a, b, d)?;
    Ok(d)
}

#[cycle(picked)]
fn picked_anew(
    nodes: &mut Nodes<Leaf>,
    groups: &Groups,
    ctx: &Context,
    memo: &mut Pairs,
    test: &Test,
    a: u64,
    b: u64,
) -> Result<u64, NoMemory>
    requires { IsAskedPick groups.now ctx.now test.now nodes.old memo.old a b }
    ensures extends_arena { ExtendsArena nodes.old nodes.new }
    ensures number { IfOk result (λ d. d < length nodes.new) }
    ensures pick { IfOk result (λ d. IsPick groups.now.ranks (sizes groups.now ctx.now) Anywhere test.now (diagram nodes.old a) (diagram nodes.old b) (diagram nodes.new d)) }
    ensures memo { OnOk result (Remembers (PickedFor groups.now.ranks (sizes groups.now ctx.now) test.now nodes.new) memo.new) }
{
    let first = least(nodes, groups, ctx, test, a, b).copy()?;
    let ay = side(nodes, a, &first, true);
    let bn = side(nodes, b, &first, false);
    if same_test(test, &first) {
        return ask(nodes, groups, ctx, first, ay, bn);
    }
    let an = side(nodes, a, &first, false);
    let by = side(nodes, b, &first, true);
    let y = picked_under(nodes, groups, ctx, memo, &first, true, test, ay, by)?;
    let n = picked_under(nodes, groups, ctx, memo, &first, false, test, an, bn)?;
    ask(nodes, groups, ctx, first, y, n)
}

// A test before two diagrams, where another test has an answer.
#[cycle(picked)]
fn picked_under(
    nodes: &mut Nodes<Leaf>,
    groups: &Groups,
    ctx: &Context,
    memo: &mut Pairs,
    first: &Test,
    yes: bool,
    test: &Test,
    a: u64,
    b: u64,
) -> Result<u64, NoMemory>
    requires { IsAskedPick groups.now ctx.now test.now nodes.old memo.old a b }
    ensures extends_arena { ExtendsArena nodes.old nodes.new }
    ensures number { IfOk result (λ d. d < length nodes.new) }
    ensures pick { IfOk result (λ d. IsPick groups.now.ranks (sizes groups.now ctx.now) (Where first.now yes) test.now (diagram nodes.old a) (diagram nodes.old b) (diagram nodes.new d)) }
    ensures memo { OnOk result (Remembers (PickedFor groups.now.ranks (sizes groups.now ctx.now) test.now nodes.new) memo.new) }
{
    match entailed(first, yes, test) {
        Some(true) => Ok(a),
        Some(false) => Ok(b),
        None => picked(nodes, groups, ctx, memo, test, a, b),
    }
}

/// A test before two diagrams: the answer is that of `yes` where the test passes, and else that of
/// `no`. This holds everywhere, so under the context too. Refuses for memory alone.
pub fn ite(
    nodes: &mut Nodes<Leaf>,
    groups: &Groups,
    ctx: &Context,
    test: Test,
    yes: u64,
    no: u64,
) -> Result<u64, NoMemory>
    requires yes { IsWellFormedDiagram groups.now ctx.now nodes.old yes }
    requires no { IsWellFormedDiagram groups.now ctx.now nodes.old no }
    requires test { TestIn (sizes groups.now ctx.now) test }
    ensures extends_arena { ExtendsArena nodes.old nodes.new }
    ensures diagram { IfOk result (IsWellFormedDiagram groups.now ctx.now nodes.new) }
    ensures walks { IfOk result (λ d. (m : Arrays) (k : List ℕ) → walk (diagram nodes.new d) m k ≡ (if passes test m k then walk (diagram nodes.old yes) m k else walk (diagram nodes.old no) m k)) }
    ensures answer { IfOk result (λ d. Under ctx.now (λ m k. answer nodes.new d m k ≡ (if passes test m k then answer nodes.old yes m k else answer nodes.old no m k))) }
{
    pick(nodes, groups, ctx, &test, yes, no)
}
