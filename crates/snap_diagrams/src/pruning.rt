//! Diagrams without the ways that a context rules out.

ghost use Rattle.std.specs.Prelude.{◌≡◌, ◌<◌, IfOk, IfSome, IsTrue, OnOk, length};
ghost use Rattle.snap_diagrams.specs.Arena.{ExtendsArena};
ghost use Rattle.snap_diagrams.specs.Contexts.{Met, Under};
ghost use Rattle.snap_diagrams.specs.Diagrams.{diagram, walk, answer};
ghost use Rattle.snap_diagrams.specs.Picks.{sizes, IsWellFormedDiagram};
ghost use Rattle.snap_diagrams.specs.Pruned.{IsPruned, IsLive, IsPart};
ghost use Rattle.snap_diagrams.specs.Memoed.{IsKey, IsPlan, PrunedFor, IsAskedPruned};
ghost use Rattle.snap_diagrams.specs.Memos.{Remembers};

use crate::forgetting::forgotten;
use crate::leaf::Leaf;
use crate::node::Node;
use crate::nodes::Nodes;
use crate::numbers::Numbers;
use crate::pick::{ask, look};
use crate::places::{Spelling, mark_places, spelling_of, stays_free};
use crate::quiet::{quiet_ones, stays};
use crate::reach::{Reached, joins, reach_from};
use crate::survey::{Survey, look_over};
use crate::tested::{mark_tests, noted_mark};
use snap_context::context::{Assumed, Context};
use snap_context::tested::Tested;
use snap_core::NoMemory;
use snap_core::policy::Test;
use snap_dep::groups::Groups;

/// A diagram's test and ways, or nothing where it is a leaf.
#[derive(Drop)]
pub enum Decomposition {
    Whole,
    Split { test: Test, yes: u64, no: u64 },
}

/// The first test and its ways. Refuses for memory alone.
pub fn part_of(nodes: &Nodes<Leaf>, d: u64) -> Result<Decomposition, NoMemory>
    requires { d < length nodes.now }
    ensures { IfOk result (IsPart nodes.now d) }
{
    match look(nodes, d) {
        Node::Leaf(_) => Ok(Decomposition::Whole),
        Node::Ask { test, yes, no } => {
            let copy = test.copy()?;
            Ok(Decomposition::Split {
                test: copy,
                yes: *yes,
                no: *no,
            })
        }
    }
}

/// What is looked up before pruning: which numbers are reached, what is tested at all and how places are spelled,
/// and by places which numbers are of quiet diagrams and which of such that test places alone, what each number's
/// diagram tests, and which are ways of several tests.
#[derive(Drop)]
pub struct PruningPlan {
    pub reached: Reached,
    pub survey: Survey,
    pub quiet: Vec<bool>,
    pub spelling: Spelling,
    pub places: Vec<bool>,
    pub tested: Vec<Option<Tested>>,
    pub joins: Vec<bool>,
}

// Facts and nodes for which the model of a context is known to hold twice as many.
const MOST_FACTS: u64 = 2_147_483_648;

const MOST_NODES: u64 = 1_073_741_824;

// What is known about what a diagram tests, behind its place, where several ways lead to it.
fn memo_key(
    nodes: &Nodes<Leaf>,
    ctx: &Context,
    plan: &PruningPlan,
    d: u64,
) -> Result<Option<Vec<u64>>, NoMemory>
    requires d { d < length nodes.now }
    requires plan { IsPlan plan.now nodes.now }
    ensures { IfOk result (λ o. IfSome o (λ key. IsKey plan.now nodes.now ctx.now d key.items)) }
{
    let _arena = nodes.count();
    let Some(place) = plan.reached.place(d) else {
        return Ok(None);
    };
    if plan.joins.get(place) != Some(&true) {
        return Ok(None);
    }
    if d > MOST_NODES || ctx.facts().len() as u64 > MOST_FACTS {
        return Ok(None);
    }
    match noted_mark(&plan.tested, place) {
        Some(mark) => ctx.known(place as u64, mark.comps, mark.arrays),
        None => Ok(None),
    }
}

// Whether nothing is dead under a context, as far as the plan tells.
fn is_live(nodes: &Nodes<Leaf>, groups: &Groups, ctx: &Context, plan: &PruningPlan, d: u64) -> bool
    requires d { IsWellFormedDiagram groups.now ctx.now nodes.now d }
    requires plan { IsPlan plan.now nodes.now }
    ensures { IsTrue result → IsLive (Met ctx.now) (diagram nodes.now d) }
{
    stays(
        nodes,
        groups,
        ctx,
        &plan.survey,
        &plan.reached,
        &plan.quiet,
        d,
    ) || stays_free(
        nodes,
        groups,
        ctx,
        &plan.reached,
        plan.spelling,
        &plan.places,
        &plan.tested,
        d,
    )
}

// A diagram pruned, which may be remembered.
#[cycle(pruned)]
fn pruned(
    nodes: &mut Nodes<Leaf>,
    groups: &Groups,
    ctx: &Context,
    plan: &PruningPlan,
    memo: &mut Numbers,
    d: u64,
) -> Result<u64, NoMemory>
    requires { IsAskedPruned groups.now ctx.now plan.now nodes.old memo.old d }
    ensures extends_arena { ExtendsArena nodes.old nodes.new }
    ensures number { IfOk result (λ r. r < length nodes.new) }
    ensures pruned { IfOk result (λ r. IsPruned groups.now.ranks (sizes groups.now ctx.now) ctx.now (diagram nodes.old d) (diagram nodes.new r)) }
    ensures memo { OnOk result (Remembers (PrunedFor groups.now.ranks (sizes groups.now ctx.now) plan.now nodes.new) memo.new) }
{
    if is_live(nodes, groups, ctx, plan, d) {
        return Ok(d);
    }
    match forgotten(nodes, groups, ctx, plan, d)? {
        Some(lean) => pruned_under(nodes, groups, &lean, plan, memo, d),
        None => pruned_under(nodes, groups, ctx, plan, memo, d),
    }
}

// A diagram pruned under a context that has no more to forget before it.
#[cycle(pruned)]
fn pruned_under(
    nodes: &mut Nodes<Leaf>,
    groups: &Groups,
    ctx: &Context,
    plan: &PruningPlan,
    memo: &mut Numbers,
    d: u64,
) -> Result<u64, NoMemory>
    requires { IsAskedPruned groups.now ctx.now plan.now nodes.old memo.old d }
    ensures extends_arena { ExtendsArena nodes.old nodes.new }
    ensures number { IfOk result (λ r. r < length nodes.new) }
    ensures pruned { IfOk result (λ r. IsPruned groups.now.ranks (sizes groups.now ctx.now) ctx.now (diagram nodes.old d) (diagram nodes.new r)) }
    ensures memo { OnOk result (Remembers (PrunedFor groups.now.ranks (sizes groups.now ctx.now) plan.now nodes.new) memo.new) }
{
    let Some(key) = memo_key(nodes, ctx, plan, d)? else {
        return pruned_anew(nodes, groups, ctx, plan, memo, d);
    };
    if let Some(r) = memo.get(&key) {
        return Ok(r);
    }
    let r = pruned_anew(nodes, groups, ctx, plan, memo, d)?;
    memo.put(key, r)?;
    Ok(r)
}

#[cycle(pruned)]
fn pruned_anew(
    nodes: &mut Nodes<Leaf>,
    groups: &Groups,
    ctx: &Context,
    plan: &PruningPlan,
    memo: &mut Numbers,
    d: u64,
) -> Result<u64, NoMemory>
    requires { IsAskedPruned groups.now ctx.now plan.now nodes.old memo.old d }
    ensures extends_arena { ExtendsArena nodes.old nodes.new }
    ensures number { IfOk result (λ r. r < length nodes.new) }
    ensures pruned { IfOk result (λ r. IsPruned groups.now.ranks (sizes groups.now ctx.now) ctx.now (diagram nodes.old d) (diagram nodes.new r)) }
    ensures memo { OnOk result (Remembers (PrunedFor groups.now.ranks (sizes groups.now ctx.now) plan.now nodes.new) memo.new) }
{
    match part_of(nodes, d)? {
        Decomposition::Whole => Ok(d),
        Decomposition::Split { test, yes, no } => match ctx.assume(&test, true)? {
            Assumed::Impossible => pruned(nodes, groups, ctx, plan, memo, no),
            Assumed::More(yes_ctx) => match ctx.assume(&test, false)? {
                Assumed::Impossible => pruned(nodes, groups, ctx, plan, memo, yes),
                Assumed::More(no_ctx) => {
                    let y = pruned(nodes, groups, &yes_ctx, plan, memo, yes)?;
                    let n = pruned(nodes, groups, &no_ctx, plan, memo, no)?;
                    ask(nodes, groups, ctx, test, y, n)
                }
            },
        },
    }
}

/// The same leaf on every store and packet that meet the context, so the same answer, and each way of
/// each test is met by some that meet the context and the answers before. Refuses for memory alone.
pub fn prune(
    nodes: &mut Nodes<Leaf>,
    groups: &Groups,
    ctx: &Context,
    d: u64,
) -> Result<u64, NoMemory>
    requires { IsWellFormedDiagram groups.now ctx.now nodes.old d }
    ensures extends_arena { ExtendsArena nodes.old nodes.new }
    ensures diagram { IfOk result (IsWellFormedDiagram groups.now ctx.now nodes.new) }
    ensures walks { IfOk result (λ r. Under ctx.now (λ m k. walk (diagram nodes.new r) m k ≡ walk (diagram nodes.old d) m k)) }
    ensures answer { IfOk result (λ r. Under ctx.now (λ m k. answer nodes.new r m k ≡ answer nodes.old d m k)) }
    ensures live { IfOk result (λ r. IsLive (Met ctx.now) (diagram nodes.new r)) }
{
    if let Node::Leaf(_) = look(nodes, d) {
        return Ok(d);
    }
    let reached = reach_from(nodes, &[d])?;
    let survey = look_over(nodes, groups.count(), &reached)?;
    let quiet = quiet_ones(nodes, &survey, &reached)?;
    if stays(nodes, groups, ctx, &survey, &reached, &quiet, d) {
        return Ok(d);
    }
    let spelling = spelling_of(nodes, &reached);
    let places = mark_places(nodes, &reached, spelling)?;
    let tested = mark_tests(nodes, &reached)?;
    let joins = joins(nodes, &reached)?;
    let plan = PruningPlan {
        reached,
        survey,
        quiet,
        spelling,
        places,
        tested,
        joins,
    };
    let mut memo = Numbers::new(nodes.allocator());
    pruned(nodes, groups, ctx, &plan, &mut memo, d)
}
