//! Whether diagrams surely do the same under a context. What was found of a pair is remembered beside the facts that bear on it.

ghost use Rattle.std.specs.Prelude.{◌≡◌, ◌≤◌, IfOk, OnOk, false, length, true};
ghost use Rattle.snap_diagrams.specs.Diagrams.{diagram};
ghost use Rattle.snap_equal.specs.Asked.{AreAsked};
ghost use Rattle.snap_equal.specs.Inputs.{IsLeaf, IsTest, space};
ghost use Rattle.snap_equal.specs.Leaves.{AreRemembered, DiagramsDoSame, LeavesDoSame};
ghost use Rattle.snap_equal.specs.Told.{On, Where};

use crate::agreeing::agree;
use crate::keys::pair_key;
use crate::leaves::same_leaves;
use crate::marks::Marks;
use crate::names::either;
use crate::stop::Stop;
use crate::weaker::weaker;
use snap_context::context::{Assumed, Context};
use snap_core::NoMemory;
use snap_core::policy::Test;
use snap_diagrams::equal::same_test;
use snap_diagrams::leaf::Leaf;
use snap_diagrams::node::Node;
use snap_diagrams::nodes::Nodes;
use snap_diagrams::numbers::Numbers;
use snap_diagrams::pick::look;
use std::alloc::Global;

/// What is remembered of pairs of numbers: which agree without any test, and which do the same where facts are met.
#[derive(Drop)]
pub(crate) struct Memos {
    pub agreed: Numbers,
    pub met: Numbers,
}

/// What is looked up before a comparison: the context without facts, and the marks of both diagrams.
#[derive(Drop)]
pub(crate) struct ComparisonPlan {
    pub plain: Context,
    pub left: Marks,
    pub right: Marks,
}

// The most facts that a context holds.
const MOST_FACTS: usize = 4_294_967_295;

// Whether two leaves surely do the same under a context.
#[cycle(leaves_same)]
fn leaves_same(
    alloc: Global,
    ctx: &Context,
    arrays: u16,
    left: &Leaf,
    right: &Leaf,
) -> Result<bool, NoMemory>
    requires few { arrays ≤ 64 }
    requires left { IsLeaf (space ctx.now arrays) left.now }
    requires right { IsLeaf (space ctx.now arrays) right.now }
    ensures { IfOk result (λ yes. yes ≡ true → On ctx.now (LeavesDoSame left.now right.now)) }
{
    match same_leaves(alloc, ctx, arrays, left, right) {
        Ok(yes) => Ok(yes),
        Err(Stop::NoMemory) => Err(NoMemory),
        Err(Stop::Split(test)) => {
            if !leaves_same_where(alloc, ctx, arrays, &test, true, left, right)? {
                return Ok(false);
            }
            leaves_same_where(alloc, ctx, arrays, &test, false, left, right)
        }
    }
}

// Whether two leaves surely do the same where a test has an answer. The facts grow, and a context refuses more than so many.
#[cycle(leaves_same)]
fn leaves_same_where(
    alloc: Global,
    ctx: &Context,
    arrays: u16,
    test: &Test,
    yes: bool,
    left: &Leaf,
    right: &Leaf,
) -> Result<bool, NoMemory>
    requires few { arrays ≤ 64 }
    requires test { IsTest (space ctx.now arrays) test.now }
    requires left { IsLeaf (space ctx.now arrays) left.now }
    requires right { IsLeaf (space ctx.now arrays) right.now }
    ensures { IfOk result (λ same. same ≡ true → On ctx.now (Where test.now yes (LeavesDoSame left.now right.now))) }
{
    if ctx.facts().len() >= MOST_FACTS {
        return Err(NoMemory);
    }
    match ctx.assume(test, yes)? {
        Assumed::Impossible => Ok(true),
        Assumed::More(more) => leaves_same(alloc, &more, arrays, left, right),
    }
}

/// Whether several ways lead to one of two numbers.
pub(crate) fn is_joined(plan: &ComparisonPlan, first: u64, second: u64) -> bool {
    plan.left.is_joined(first) || plan.right.is_joined(second)
}

/// Whether two diagrams surely do the same under a context. Where several ways lead to one of them, only the facts that bear
/// on both count, so that each pair is looked at once for all that may be known of it; where these are too few or too many,
/// the answer is no.
#[cycle(same)]
pub(crate) fn same(
    memos: &mut Memos,
    plan: &ComparisonPlan,
    ctx: &Context,
    arrays: u16,
    left: &Nodes<Leaf>,
    first: u64,
    right: &Nodes<Leaf>,
    second: u64,
) -> Result<bool, NoMemory>
    requires { AreAsked ctx.now arrays plan.now left.now right.now first second memos.old }
    ensures same { IfOk result (λ yes. yes ≡ true → On ctx.now (DiagramsDoSame (diagram left.now first) (diagram right.now second))) }
    ensures memos { OnOk result (AreRemembered (length ctx.now.classes) left.now right.now memos.new) }
{
    if agree(
        &mut memos.agreed,
        &plan.plain,
        arrays,
        left,
        first,
        right,
        second,
    )? {
        return Ok(true);
    }
    if !is_joined(plan, first, second) {
        return same_anew(memos, plan, ctx, arrays, left, first, right, second);
    }
    let names = either(plan.left.names(first), plan.right.names(second));
    match weaker(left.allocator(), ctx, names)? {
        None => Ok(false),
        Some(weak) => same_met(memos, plan, &weak, arrays, left, first, right, second),
    }
}

// The number that an answer is remembered by: 1 stands for yes.
fn number_of(yes: bool) -> u64
    ensures { result ≡ 1 → yes ≡ true }
{
    if yes { 1 } else { 0 }
}

// The same, which may be remembered.
#[cycle(same)]
fn same_met(
    memos: &mut Memos,
    plan: &ComparisonPlan,
    ctx: &Context,
    arrays: u16,
    left: &Nodes<Leaf>,
    first: u64,
    right: &Nodes<Leaf>,
    second: u64,
) -> Result<bool, NoMemory>
    requires { AreAsked ctx.now arrays plan.now left.now right.now first second memos.old }
    ensures same { IfOk result (λ yes. yes ≡ true → On ctx.now (DiagramsDoSame (diagram left.now first) (diagram right.now second))) }
    ensures memos { OnOk result (AreRemembered (length ctx.now.classes) left.now right.now memos.new) }
{
    let key = pair_key(left.allocator(), first, second, ctx.facts())?;
    if let Some(number) = memos.met.get(&key) {
        return Ok(number == 1);
    }
    let yes = same_anew(memos, plan, ctx, arrays, left, first, right, second)?;
    memos.met.put(key, number_of(yes))?;
    Ok(yes)
}

// The same by the ways of a test: of the one that both begin with, or of the higher diagram's.
#[cycle(same)]
fn same_anew(
    memos: &mut Memos,
    plan: &ComparisonPlan,
    ctx: &Context,
    arrays: u16,
    left: &Nodes<Leaf>,
    first: u64,
    right: &Nodes<Leaf>,
    second: u64,
) -> Result<bool, NoMemory>
    requires { AreAsked ctx.now arrays plan.now left.now right.now first second memos.old }
    ensures same { IfOk result (λ yes. yes ≡ true → On ctx.now (DiagramsDoSame (diagram left.now first) (diagram right.now second))) }
    ensures memos { OnOk result (AreRemembered (length ctx.now.classes) left.now right.now memos.new) }
{
    match look(left, first) {
        Node::Leaf(leaf) => match look(right, second) {
            Node::Leaf(other) => leaves_same(left.allocator(), ctx, arrays, leaf, other),
            Node::Ask { test, yes, no } => same_ways(
                memos, plan, ctx, arrays, test, left, first, first, right, *yes, *no,
            ),
        },
        Node::Ask { test, yes, no } => match look(right, second) {
            Node::Leaf(_) => same_ways(
                memos, plan, ctx, arrays, test, left, *yes, *no, right, second, second,
            ),
            Node::Ask {
                test: other,
                yes: y,
                no: n,
            } => {
                if same_test(test, other) {
                    return same_ways(
                        memos, plan, ctx, arrays, test, left, *yes, *no, right, *y, *n,
                    );
                }
                if plan.left.height(first) < plan.right.height(second) {
                    return same_ways(
                        memos, plan, ctx, arrays, other, left, first, first, right, *y, *n,
                    );
                }
                same_ways(
                    memos, plan, ctx, arrays, test, left, *yes, *no, right, second, second,
                )
            }
        },
    }
}

// Whether the ways of a test surely do the same: two diagrams where it passes, and two where it doesn't.
#[cycle(same)]
fn same_ways(
    memos: &mut Memos,
    plan: &ComparisonPlan,
    ctx: &Context,
    arrays: u16,
    test: &Test,
    left: &Nodes<Leaf>,
    left_yes: u64,
    left_no: u64,
    right: &Nodes<Leaf>,
    right_yes: u64,
    right_no: u64,
) -> Result<bool, NoMemory>
    requires test { IsTest (space ctx.now arrays) test.now }
    requires yes { AreAsked ctx.now arrays plan.now left.now right.now left_yes right_yes memos.old }
    requires no { AreAsked ctx.now arrays plan.now left.now right.now left_no right_no memos.old }
    ensures yes { IfOk result (λ same. same ≡ true → On ctx.now (Where test.now true (DiagramsDoSame (diagram left.now left_yes) (diagram right.now right_yes)))) }
    ensures no { IfOk result (λ same. same ≡ true → On ctx.now (Where test.now false (DiagramsDoSame (diagram left.now left_no) (diagram right.now right_no)))) }
    ensures memos { OnOk result (AreRemembered (length ctx.now.classes) left.now right.now memos.new) }
{
    if !same_where(
        memos, plan, ctx, arrays, test, true, left, left_yes, right, right_yes,
    )? {
        return Ok(false);
    }
    same_where(
        memos, plan, ctx, arrays, test, false, left, left_no, right, right_no,
    )
}

// Whether two diagrams surely do the same where a test has an answer.
#[cycle(same)]
fn same_where(
    memos: &mut Memos,
    plan: &ComparisonPlan,
    ctx: &Context,
    arrays: u16,
    test: &Test,
    yes: bool,
    left: &Nodes<Leaf>,
    first: u64,
    right: &Nodes<Leaf>,
    second: u64,
) -> Result<bool, NoMemory>
    requires test { IsTest (space ctx.now arrays) test.now }
    requires asked { AreAsked ctx.now arrays plan.now left.now right.now first second memos.old }
    ensures same { IfOk result (λ same. same ≡ true → On ctx.now (Where test.now yes (DiagramsDoSame (diagram left.now first) (diagram right.now second)))) }
    ensures memos { OnOk result (AreRemembered (length ctx.now.classes) left.now right.now memos.new) }
{
    match ctx.assume(test, yes)? {
        Assumed::Impossible => Ok(true),
        Assumed::More(more) => same(memos, plan, &more, arrays, left, first, right, second),
    }
}
