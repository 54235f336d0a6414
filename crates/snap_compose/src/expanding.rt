//! Two diagrams gone down together, one to come after the other: a test of the second is asked in its turn where no leaf
//! of the first sets or updates what it asks.

ghost use Rattle.std.specs.Prelude.{◌<◌, ◌≤◌, ℕ, List, length, IfOk, MatchOption, ⊤};
ghost use Rattle.snap_diagrams.specs.Bounds.{Sizes, TestIn};
ghost use Rattle.snap_diagrams.specs.Diagrams.{diagram};
ghost use Rattle.snap_diagrams.specs.Picks.{IsWellFormedDiagram, IsDiagram, sizes};
ghost use Rattle.snap_compose.specs.Marks.{AreMarked, IsMarkedBy};

use crate::marks::{Mark, Marks, misses_test};
use snap_context::context::Context;
use snap_core::NoMemory;
use snap_core::policy::Test;
use snap_dep::groups::Groups;
use snap_diagrams::leaf::Leaf;
use snap_diagrams::nodes::Nodes;
use snap_diagrams::order::compare;
use snap_diagrams::pick::side;
use snap_diagrams::pruning::{Decomposition, part_of};
use std::cmp::Ordering;

/// Two diagrams: a first, and one that comes after it.
#[derive(Clone, Copy)]
pub struct Pair {
    pub first: u64,
    pub second: u64,
}

/// How a pair goes on: the first is a leaf, or a test is asked before both.
#[derive(Drop)]
pub enum Expansion {
    Whole,
    Asked { test: Test, yes: Pair, no: Pair },
}

ghost use Rattle.snap_compose.specs.Turns.{IsAlong, IsTurn};

// The second diagram where a test has an answer, as far as the leaves of the first miss the test.
fn along(nodes: &Nodes<Leaf>, mark: Mark, test: &Test, yes: bool, d: u64) -> u64
    requires { d < length nodes.now }
    ensures within { result ≤ d }
    ensures along { (ranks : List ℕ) (s : Sizes) → IsDiagram ranks s (diagram nodes.now d) → IsAlong ranks s mark test.now yes (diagram nodes.now d) (diagram nodes.now result) }
{
    if misses_test(mark, test) {
        side(nodes, d, test, yes)
    } else {
        d
    }
}

// The test of the second, where it comes first and the leaves of the first miss it.
fn asked_by_second(
    nodes: &Nodes<Leaf>,
    groups: &Groups,
    ctx: &Context,
    mark: Mark,
    test: &Test,
    a: u64,
    d: u64,
) -> Result<Option<Expansion>, NoMemory>
    requires a { IsWellFormedDiagram groups.now ctx.now nodes.now a }
    requires d { IsWellFormedDiagram groups.now ctx.now nodes.now d }
    requires test { TestIn (sizes groups.now ctx.now) test.now }
    requires mark { IsMarkedBy mark (diagram nodes.now a) }
    ensures { IfOk result (λ o. MatchOption o ⊤ (IsTurn groups.now ctx.now nodes.now a d)) }
{
    match part_of(nodes, d)? {
        Decomposition::Whole => Ok(None),
        Decomposition::Split {
            test: other,
            yes,
            no,
        } => {
            if !misses_test(mark, &other) {
                return Ok(None);
            }
            if compare(groups, &other, test) == Ordering::Greater {
                return Ok(None);
            }
            let yes = Pair {
                first: side(nodes, a, &other, true),
                second: yes,
            };
            let no = Pair {
                first: side(nodes, a, &other, false),
                second: no,
            };
            Ok(Some(Expansion::Asked {
                test: other,
                yes,
                no,
            }))
        }
    }
}

/// How a pair goes on. Refuses for memory alone.
pub fn next_turn(
    nodes: &Nodes<Leaf>,
    groups: &Groups,
    ctx: &Context,
    marks: &Marks,
    a: u64,
    d: u64,
) -> Result<Expansion, NoMemory>
    requires a { IsWellFormedDiagram groups.now ctx.now nodes.now a }
    requires d { IsWellFormedDiagram groups.now ctx.now nodes.now d }
    requires marked { AreMarked nodes.now marks.now }
    ensures { IfOk result (IsTurn groups.now ctx.now nodes.now a d) }
{
    match part_of(nodes, a)? {
        Decomposition::Whole => Ok(Expansion::Whole),
        Decomposition::Split { test, yes, no } => {
            let mark = marks.of(a);
            if let Some(turn) = asked_by_second(nodes, groups, ctx, mark, &test, a, d)? {
                return Ok(turn);
            }
            let yes = Pair {
                first: yes,
                second: along(nodes, mark, &test, true, d),
            };
            let no = Pair {
                first: no,
                second: along(nodes, mark, &test, false, d),
            };
            Ok(Expansion::Asked { test, yes, no })
        }
    }
}
