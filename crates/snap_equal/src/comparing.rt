//! The comparison of two diagrams.

ghost use Rattle.std.specs.Prelude.{◌≡◌, ◌≤◌, IfOk, OnOk, length, true};
ghost use Rattle.snap_diagrams.specs.Diagrams.{diagram};
ghost use Rattle.snap_equal.specs.Asked.{AreAsked};
ghost use Rattle.snap_equal.specs.Inputs.{IsLeaf, IsTest, space};
ghost use Rattle.snap_equal.specs.Leaves.{AreRemembered, DiagramsDoSame, LeavesDoSame};
ghost use Rattle.snap_equal.specs.Same.{CanBeCompared, IsCompared};
ghost use Rattle.snap_equal.specs.Told.{AreBelow, IsAnswer, On, Where};

use crate::agreeing::agree;
use crate::leaves::same_leaves;
use crate::marks::Marks;
use crate::stop::Stop;
use crate::sure::{ComparisonPlan, Memos, is_joined, same};
use snap_context::context::{Assumed, Context};
use snap_context::example::example;
use snap_core::NoMemory;
use snap_core::packet::Packet;
use snap_core::policy::Test;
use snap_core::store::Store;
use snap_diagrams::leaf::Leaf;
use snap_diagrams::node::Node;
use snap_diagrams::nodes::Nodes;
use snap_diagrams::numbers::Numbers;
use snap_diagrams::pick::look;
use std::alloc::Global;

/// How two diagrams compare.
#[derive(Drop)]
pub enum Compared {
    /// They do the same with every store and packet.
    Same,
    /// They don't do the same with these.
    Differ { store: Store, packet: Packet },
}

// The most facts that a context holds.
const MOST_FACTS: usize = 4_294_967_295;

// A store and a packet that meet the context.
fn differ(alloc: Global, ctx: &Context, arrays: u16) -> Result<Compared, NoMemory>
    requires { AreBelow arrays ctx.now }
    ensures { IfOk result (IsAnswer ctx.now arrays (λ m k. ⊥)) }
{
    let (store, packet) = example(alloc, ctx)?;
    Ok(Compared::Differ { store, packet })
}

// Compares two leaves under a context.
#[cycle(compare_leaves)]
fn compare_leaves(
    alloc: Global,
    ctx: &Context,
    arrays: u16,
    left: &Leaf,
    right: &Leaf,
) -> Result<Compared, NoMemory>
    requires few { arrays ≤ 64 }
    requires facts { AreBelow arrays ctx.now }
    requires left { IsLeaf (space ctx.now arrays) left.now }
    requires right { IsLeaf (space ctx.now arrays) right.now }
    ensures { IfOk result (IsAnswer ctx.now arrays (LeavesDoSame left.now right.now)) }
{
    match same_leaves(alloc, ctx, arrays, left, right) {
        Ok(true) => Ok(Compared::Same),
        Ok(false) => differ(alloc, ctx, arrays),
        Err(Stop::NoMemory) => Err(NoMemory),
        Err(Stop::Split(test)) => {
            let compared = compare_leaves_where(alloc, ctx, arrays, &test, true, left, right)?;
            if let Compared::Differ { .. } = compared {
                return Ok(compared);
            }
            compare_leaves_where(alloc, ctx, arrays, &test, false, left, right)
        }
    }
}

// Compares two leaves where a test has an answer. The facts grow, and a context refuses more than so many.
#[cycle(compare_leaves)]
fn compare_leaves_where(
    alloc: Global,
    ctx: &Context,
    arrays: u16,
    test: &Test,
    yes: bool,
    left: &Leaf,
    right: &Leaf,
) -> Result<Compared, NoMemory>
    requires few { arrays ≤ 64 }
    requires facts { AreBelow arrays ctx.now }
    requires test { IsTest (space ctx.now arrays) test.now }
    requires left { IsLeaf (space ctx.now arrays) left.now }
    requires right { IsLeaf (space ctx.now arrays) right.now }
    ensures { IfOk result (IsAnswer ctx.now arrays (Where test.now yes (LeavesDoSame left.now right.now))) }
{
    if ctx.facts().len() >= MOST_FACTS {
        return Err(NoMemory);
    }
    match ctx.assume(test, yes)? {
        Assumed::Impossible => Ok(Compared::Same),
        Assumed::More(more) => compare_leaves(alloc, &more, arrays, left, right),
    }
}

// Whether two diagrams agree without any test or, where several ways lead to one of them, surely do the same.
fn are_same(
    memos: &mut Memos,
    plan: &ComparisonPlan,
    ctx: &Context,
    arrays: u16,
    left: &Nodes<Leaf>,
    first: u64,
    right: &Nodes<Leaf>,
    second: u64,
) -> Result<bool, NoMemory>
    requires { AreAsked ctx.now arrays plan.now left.now right.now first second memos.old }
    ensures same { IfOk result (λ yes. yes ≡ true → On ctx.now (DiagramsDoSame (diagram left.now first) (diagram right.now second))) }
    ensures memos { OnOk result (AreRemembered (length ctx.now.classes) left.now right.now memos.new) }
{
    if is_joined(plan, first, second) {
        same(memos, plan, ctx, arrays, left, first, right, second)
    } else {
        agree(
            &mut memos.agreed,
            &plan.plain,
            arrays,
            left,
            first,
            right,
            second,
        )
    }
}

// Compares two diagrams under a context.
#[cycle(compare_under)]
fn compare_under(
    memos: &mut Memos,
    plan: &ComparisonPlan,
    ctx: &Context,
    arrays: u16,
    left: &Nodes<Leaf>,
    first: u64,
    right: &Nodes<Leaf>,
    second: u64,
) -> Result<Compared, NoMemory>
    requires facts { AreBelow arrays ctx.now }
    requires asked { AreAsked ctx.now arrays plan.now left.now right.now first second memos.old }
    ensures compared { IfOk result (IsAnswer ctx.now arrays (DiagramsDoSame (diagram left.now first) (diagram right.now second))) }
    ensures memos { OnOk result (AreRemembered (length ctx.now.classes) left.now right.now memos.new) }
{
    if are_same(memos, plan, ctx, arrays, left, first, right, second)? {
        return Ok(Compared::Same);
    }
    match look(left, first) {
        Node::Ask { test, yes, no } => {
            let compared = compare_where(
                memos, plan, ctx, arrays, test, true, left, *yes, right, second,
            )?;
            if let Compared::Differ { .. } = compared {
                return Ok(compared);
            }
            compare_where(
                memos, plan, ctx, arrays, test, false, left, *no, right, second,
            )
        }
        Node::Leaf(leaf) => match look(right, second) {
            Node::Ask { test, yes, no } => {
                let compared = compare_where(
                    memos, plan, ctx, arrays, test, true, left, first, right, *yes,
                )?;
                if let Compared::Differ { .. } = compared {
                    return Ok(compared);
                }
                compare_where(
                    memos, plan, ctx, arrays, test, false, left, first, right, *no,
                )
            }
            Node::Leaf(other) => compare_leaves(left.allocator(), ctx, arrays, leaf, other),
        },
    }
}

// Compares two diagrams where a test has an answer.
#[cycle(compare_under)]
fn compare_where(
    memos: &mut Memos,
    plan: &ComparisonPlan,
    ctx: &Context,
    arrays: u16,
    test: &Test,
    yes: bool,
    left: &Nodes<Leaf>,
    first: u64,
    right: &Nodes<Leaf>,
    second: u64,
) -> Result<Compared, NoMemory>
    requires facts { AreBelow arrays ctx.now }
    requires test { IsTest (space ctx.now arrays) test.now }
    requires asked { AreAsked ctx.now arrays plan.now left.now right.now first second memos.old }
    ensures compared { IfOk result (IsAnswer ctx.now arrays (Where test.now yes (DiagramsDoSame (diagram left.now first) (diagram right.now second)))) }
    ensures memos { OnOk result (AreRemembered (length ctx.now.classes) left.now right.now memos.new) }
{
    match ctx.assume(test, yes)? {
        Assumed::Impossible => Ok(Compared::Same),
        Assumed::More(more) => {
            compare_under(memos, plan, &more, arrays, left, first, right, second)
        }
    }
}

/// Whether two diagrams over so many components and variables do the same with every store and packet, or a store and a
/// packet with which they don't. They may be ordered under different groups.
/// Refuses for memory alone.
pub fn compare(
    left: &Nodes<Leaf>,
    first: u64,
    right: &Nodes<Leaf>,
    second: u64,
    comps: u16,
    arrays: u16,
) -> Result<Compared, NoMemory>
    requires comps { comps ≤ 64 }
    requires arrays { arrays ≤ 64 }
    requires left { CanBeCompared comps arrays left.now first }
    requires right { CanBeCompared comps arrays right.now second }
    ensures { IfOk result (IsCompared comps arrays left.now first right.now second) }
{
    let plan = ComparisonPlan {
        plain: Context::empty(left.allocator(), comps)?,
        left: Marks::new(left, first)?,
        right: Marks::new(right, second)?,
    };
    let ctx = Context::empty(left.allocator(), comps)?;
    let mut memos = Memos {
        agreed: Numbers::new(left.allocator()),
        met: Numbers::new(left.allocator()),
    };
    compare_under(&mut memos, &plan, &ctx, arrays, left, first, right, second)
}
