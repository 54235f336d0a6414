//! State tests behind updates, in front of them.

ghost use Rattle.std.specs.Prelude.{◌≡◌, ◌==◌, ◌<◌, length, All, IfOk, OnOk};
ghost use Rattle.snap_core.specs.Arrays.{updates, value_of};
ghost use Rattle.snap_core.specs.Fits.{IndexFits, OpFits};
ghost use Rattle.snap_diagrams.specs.Arena.{ExtendsArena};
ghost use Rattle.snap_diagrams.specs.Memos.{Remembers};
ghost use Rattle.snap_diagrams.specs.Bounds.{UpdateIn};
ghost use Rattle.snap_diagrams.specs.Diagrams.{diagram};
ghost use Rattle.snap_diagrams.specs.Picks.{IsWellFormedDiagram, sizes};
ghost use Rattle.snap_compose.specs.PulledBack.{EarlyIn, early_holds};
ghost use Rattle.snap_compose.specs.Splits.{IsSplit, MayBeSaid, same_index_on, number_of, with_number};
ghost use Rattle.snap_compose.specs.ChainMemoed.{also_at, at_place, BehindFor, IsAskedBehind, IsPendingSplit, passes_behind, passes_behind_op};

use crate::pulled_back::{Early, as_term, same_value};
use snap_context::context::{Context, Verdict};
use snap_context::plain::is_fixed;
use snap_core::NoMemory;
use snap_core::bits::know_updates;
use snap_core::lists::Atoms;
use snap_core::policy::{Atom, Op, Term, Test, Update};
use snap_dep::groups::Groups;
use snap_diagrams::leaf::Leaf;
use snap_diagrams::nodes::Nodes;
use snap_diagrams::pairs::Pairs;
use snap_diagrams::pick::ite;

/// One of two diagrams, by a truth that is known or a test. Refuses for memory alone.
pub fn split(
    nodes: &mut Nodes<Leaf>,
    groups: &Groups,
    ctx: &Context,
    early: Early,
    yes: u64,
    no: u64,
) -> Result<u64, NoMemory>
    requires yes { IsWellFormedDiagram groups.now ctx.now nodes.old yes }
    requires no { IsWellFormedDiagram groups.now ctx.now nodes.old no }
    requires test { EarlyIn (sizes groups.now ctx.now) early }
    ensures extends_arena { ExtendsArena nodes.old nodes.new }
    ensures number { IfOk result (λ d. d < length nodes.new) }
    ensures split { IfOk result (λ d. IsSplit groups.now ctx.now (early_holds early) (diagram nodes.old yes) (diagram nodes.old no) (diagram nodes.new d)) }
{
    match early {
        Early::Known(answer) => { if answer { Ok(yes) } else { Ok(no) } }
        Early::Ask(test) => ite(nodes, groups, ctx, test, yes, no),
    }
}

// One of two diagrams, by whether two indices give one place.
fn where_same(
    nodes: &mut Nodes<Leaf>,
    groups: &Groups,
    ctx: &Context,
    left: &[Atom],
    right: &[Atom],
    yes: u64,
    no: u64,
) -> Result<u64, NoMemory>
    requires yes { IsWellFormedDiagram groups.now ctx.now nodes.old yes }
    requires no { IsWellFormedDiagram groups.now ctx.now nodes.old no }
    requires left { IndexFits (sizes groups.now ctx.now).comps left.now }
    requires right { IndexFits (sizes groups.now ctx.now).comps right.now }
    ensures extends_arena { ExtendsArena nodes.old nodes.new }
    ensures number { IfOk result (λ d. d < length nodes.new) }
    ensures split { IfOk result (λ d. IsSplit groups.now ctx.now (same_index_on left.now right.now) (diagram nodes.old yes) (diagram nodes.old no) (diagram nodes.new d)) }
{
    match left {
        [] => { if right.is_empty() { Ok(yes) } else { Ok(no) } }
        [a, more @ ..] => match right {
            [] => Ok(no),
            [b, others @ ..] => {
                let early = same_value(*a, as_term(*b));
                let rest = where_same(nodes, groups, ctx, more, others, yes, no)?;
                split(nodes, groups, ctx, early, rest, no)
            }
        },
    }
}

// Whether two atoms have one value: on all packets, on none, or on some as far as can be seen.
fn same_atom(left: Atom, right: Atom) -> Verdict
    ensures { MayBeSaid (λ m k. value_of left k == value_of right k) result }
{
    match left {
        Atom::Num(num) => match right {
            Atom::Num(other) => {
                if num == other {
                    Verdict::Always
                } else {
                    Verdict::Never
                }
            }
            Atom::Comp(_) => Verdict::Unsure,
        },
        Atom::Comp(comp) => match right {
            Atom::Num(_) => Verdict::Unsure,
            Atom::Comp(other) => {
                if comp == other {
                    Verdict::Always
                } else {
                    Verdict::Unsure
                }
            }
        },
    }
}

// Whether two indices give one place.
fn same_place(left: &[Atom], right: &[Atom]) -> Verdict
    ensures { MayBeSaid (same_index_on left.now right.now) result }
{
    match left {
        [] => {
            if right.is_empty() {
                Verdict::Always
            } else {
                Verdict::Never
            }
        }
        [a, more @ ..] => match right {
            [] => Verdict::Never,
            [b, others @ ..] => match same_atom(*a, *b) {
                Verdict::Always => same_place(more, others),
                Verdict::Never => Verdict::Never,
                Verdict::Unsure => match same_place(more, others) {
                    Verdict::Never => Verdict::Never,
                    _ => Verdict::Unsure,
                },
            },
        },
    }
}

fn number_of(term: Term) -> u64
    ensures { result ≡ number_of term }
{
    match term {
        Term::Num(num) => num,
        Term::Plus { comp: _, plus } => plus,
    }
}

fn with_number(term: Term, num: u64) -> Term
    ensures { result ≡ with_number term num }
{
    match term {
        Term::Num(_) => Term::Num(num),
        Term::Plus { comp, plus: _ } => Term::Plus { comp, plus: num },
    }
}

// A state test that waits behind updates, and the diagrams of its two answers. It is asked where `at` gives the place that
// the index gives, so that no index is compared with what is known to be another's numbers.
#[derive(Drop)]
struct Pending<'a> {
    ups: &'a [Update],
    var: u16,
    index: &'a Atoms,
    at: &'a Atoms,
    term: Term,
    yes: u64,
    no: u64,
}

// A state test behind the first updates, which may be remembered by how many they are and its number.
#[cycle(behind)]
fn behind(
    nodes: &mut Nodes<Leaf>,
    groups: &Groups,
    ctx: &Context,
    memo: &mut Pairs,
    asked: &Pending<'_>,
    left: usize,
    num: u64,
) -> Result<u64, NoMemory>
    requires asked { IsAskedBehind groups.now ctx.now nodes.old memo.old asked.now left }
    ensures extends_arena { ExtendsArena nodes.old nodes.new }
    ensures number { IfOk result (λ d. d < length nodes.new) }
    ensures split { IfOk result (λ d. IsPendingSplit groups.now ctx.now asked.now (at_place asked.now) (passes_behind asked.now left num) nodes.old (diagram nodes.new d)) }
    ensures memo { OnOk result (Remembers (BehindFor groups.now ctx.now asked.now nodes.new) memo.new) }
{
    if let Some(d) = memo.get(left as u64, num) {
        return Ok(d);
    }
    let d = behind_anew(nodes, groups, ctx, memo, asked, left, num)?;
    memo.put(left as u64, num, d)?;
    Ok(d)
}

#[cycle(behind)]
fn behind_anew(
    nodes: &mut Nodes<Leaf>,
    groups: &Groups,
    ctx: &Context,
    memo: &mut Pairs,
    asked: &Pending<'_>,
    left: usize,
    num: u64,
) -> Result<u64, NoMemory>
    requires asked { IsAskedBehind groups.now ctx.now nodes.old memo.old asked.now left }
    ensures extends_arena { ExtendsArena nodes.old nodes.new }
    ensures number { IfOk result (λ d. d < length nodes.new) }
    ensures split { IfOk result (λ d. IsPendingSplit groups.now ctx.now asked.now (at_place asked.now) (passes_behind asked.now left num) nodes.old (diagram nodes.new d)) }
    ensures memo { OnOk result (Remembers (BehindFor groups.now ctx.now asked.now nodes.new) memo.new) }
{
    if left == 0 {
        let test = Test::State {
            var: asked.var,
            index: asked.index.copy()?,
            value: with_number(asked.term, num),
        };
        return split(nodes, groups, ctx, Early::Ask(test), asked.yes, asked.no);
    }
    let before = left - 1;
    let ups = asked.ups;
    let update = &ups[before];
    if update.var != asked.var {
        return behind(nodes, groups, ctx, memo, asked, before, num);
    }
    match same_place(update.index.items(), asked.at.items()) {
        Verdict::Always => behind_op(nodes, groups, ctx, memo, asked, before, update.op, num),
        Verdict::Never => behind(nodes, groups, ctx, memo, asked, before, num),
        Verdict::Unsure => {
            let other = behind(nodes, groups, ctx, memo, asked, before, num)?;
            let hit = behind_hit(nodes, groups, ctx, memo, asked, before, update, num)?;
            where_same(
                nodes,
                groups,
                ctx,
                update.index.items(),
                asked.index.items(),
                hit,
                other,
            )
        }
    }
}

// A state test behind the first updates and one that gives its place. Where that one's index is of numbers, they are known
// from here on, and so have a memo of their own.
#[cycle(behind)]
fn behind_hit(
    nodes: &mut Nodes<Leaf>,
    groups: &Groups,
    ctx: &Context,
    memo: &mut Pairs,
    asked: &Pending<'_>,
    before: usize,
    update: &Update,
    num: u64,
) -> Result<u64, NoMemory>
    requires asked { IsAskedBehind groups.now ctx.now nodes.old memo.old asked.now before }
    requires op { OpFits (sizes groups.now ctx.now).comps update.now.op }
    ensures extends_arena { ExtendsArena nodes.old nodes.new }
    ensures number { IfOk result (λ d. d < length nodes.new) }
    ensures split { IfOk result (λ d. IsPendingSplit groups.now ctx.now asked.now (also_at asked.now update.now) (passes_behind_op asked.now update.now.op before num) nodes.old (diagram nodes.new d)) }
    ensures memo { OnOk result (Remembers (BehindFor groups.now ctx.now asked.now nodes.new) memo.new) }
{
    if !is_fixed(update.index.items()) {
        return behind_op(nodes, groups, ctx, memo, asked, before, update.op, num);
    }
    let found = Pending {
        ups: asked.ups,
        var: asked.var,
        index: asked.index,
        at: &update.index,
        term: asked.term,
        yes: asked.yes,
        no: asked.no,
    };
    let mut own = Pairs::new(nodes.allocator());
    behind_op(nodes, groups, ctx, &mut own, &found, before, update.op, num)
}

// A state test behind the first updates and an operation on its place.
#[cycle(behind)]
fn behind_op(
    nodes: &mut Nodes<Leaf>,
    groups: &Groups,
    ctx: &Context,
    memo: &mut Pairs,
    asked: &Pending<'_>,
    before: usize,
    op: Op,
    num: u64,
) -> Result<u64, NoMemory>
    requires asked { IsAskedBehind groups.now ctx.now nodes.old memo.old asked.now before }
    requires op { OpFits (sizes groups.now ctx.now).comps op }
    ensures extends_arena { ExtendsArena nodes.old nodes.new }
    ensures number { IfOk result (λ d. d < length nodes.new) }
    ensures split { IfOk result (λ d. IsPendingSplit groups.now ctx.now asked.now (at_place asked.now) (passes_behind_op asked.now op before num) nodes.old (diagram nodes.new d)) }
    ensures memo { OnOk result (Remembers (BehindFor groups.now ctx.now asked.now nodes.new) memo.new) }
{
    match op {
        Op::Put(atom) => {
            let early = same_value(atom, with_number(asked.term, num));
            split(nodes, groups, ctx, early, asked.yes, asked.no)
        }
        Op::Add(by) => {
            let less = num.wrapping_sub(by);
            behind(nodes, groups, ctx, memo, asked, before, less)
        }
    }
}

/// One of two diagrams, by a truth after updates. Refuses for memory alone.
pub fn split_after(
    nodes: &mut Nodes<Leaf>,
    groups: &Groups,
    ctx: &Context,
    ups: &[Update],
    early: Early,
    yes: u64,
    no: u64,
) -> Result<u64, NoMemory>
    requires yes { IsWellFormedDiagram groups.now ctx.now nodes.old yes }
    requires no { IsWellFormedDiagram groups.now ctx.now nodes.old no }
    requires ups { All (UpdateIn (sizes groups.now ctx.now)) ups.now }
    requires test { EarlyIn (sizes groups.now ctx.now) early }
    ensures extends_arena { ExtendsArena nodes.old nodes.new }
    ensures number { IfOk result (λ d. d < length nodes.new) }
    ensures split { IfOk result (λ d. IsSplit groups.now ctx.now (λ m k. early_holds early (updates m ups.now k) k) (diagram nodes.old yes) (diagram nodes.old no) (diagram nodes.new d)) }
{
    match early {
        Early::Ask(Test::State { var, index, value }) => {
            know_updates(ups);
            let mut memo = Pairs::new(nodes.allocator());
            let asked = Pending {
                ups,
                var,
                index: &index,
                at: &index,
                term: value,
                yes,
                no,
            };
            let num = number_of(value);
            behind(nodes, groups, ctx, &mut memo, &asked, ups.len(), num)
        }
        Early::Ask(test) => split(nodes, groups, ctx, Early::Ask(test), yes, no),
        Early::Known(answer) => split(nodes, groups, ctx, Early::Known(answer), yes, no),
    }
}
