//! Diagrams of updates alone, one after another: a run of them is one leaf at once.

ghost use Rattle.std.specs.Prelude.{◌≡◌, ◌++◌, ◌<◌, IfOk, IsTrue, OnOk};
ghost use Rattle.snap_core.specs.Laws.{PutsSmall, write_vars};
ghost use Rattle.snap_diagrams.specs.Arena.{ExtendsArena};
ghost use Rattle.snap_diagrams.specs.Contexts.{Met};
ghost use Rattle.snap_diagrams.specs.Diagrams.{diagram};
ghost use Rattle.snap_diagrams.specs.Picks.{IsWellFormedDiagram, sizes};
ghost use Rattle.snap_diagrams.specs.Pruned.{IsLive};
ghost use Rattle.snap_compose.specs.Additions.{AreSame};
ghost use Rattle.snap_build.specs.Parts.{DoesAs, PolIn, UpdatesAlone, update_leaf, updates_of};

use crate::predicates::bit;
use snap_compose::summing::push_update;
use snap_context::context::Context;
use snap_core::NoMemory;
use snap_core::bits::op_is_small;
use snap_core::lists::{Out, Outs, Updates};
use snap_core::policy::{Pol, Update};
use snap_dep::groups::Groups;
use snap_diagrams::leaf::{Go, Leaf};
use snap_diagrams::nodes::Nodes;
use snap_diagrams::only::only;
use std::alloc::Global;

/// Whether a policy is of updates alone, one after another. The last part is looked at first: mostly it tells.
pub(crate) fn updates_alone(pol: &Pol) -> bool
    ensures { IsTrue result → UpdatesAlone pol.now }
{
    match pol {
        Pol::Change(_) => true,
        Pol::Seq(first, second) => updates_alone(second) && updates_alone(first),
        _ => false,
    }
}

// Puts the updates of such a policy behind others, and gives the variables that they write.
fn push_all(
    groups: &Groups,
    ctx: &Context,
    updates: &mut Vec<Update>,
    pol: &Pol,
) -> Result<u64, NoMemory>
    requires alone { UpdatesAlone pol.now }
    requires fits { PolIn (sizes groups.now ctx.now) pol.now }
    ensures same { OnOk result (AreSame updates.new.items (updates.old.items ++ updates_of pol.now)) }
    ensures writes { IfOk result (λ written. written ≡ write_vars pol.now) }
    ensures small { IfOk result (λ written. PutsSmall pol.now) }
{
    match pol {
        Pol::Change(update) => {
            let _arrays = groups.count();
            op_is_small(update.op);
            push_update(updates, update)?;
            Ok(bit(update.var))
        }
        Pol::Seq(first, second) => {
            let before = push_all(groups, ctx, updates, first)?;
            let behind = push_all(groups, ctx, updates, second)?;
            Ok(before | behind)
        }
        _ => Ok(0),
    }
}

// The leaf that passes the packet and does updates.
fn leaf(alloc: Global, updates: Vec<Update>, writes: u64) -> Result<Leaf, NoMemory>
    ensures { IfOk result (λ leaf. leaf ≡ update_leaf updates.items writes) }
{
    let out = Out::new(Vec::new(alloc));
    Ok(Leaf::Go(Go {
        outs: Outs::new(vec![in alloc; out]?),
        ups: Updates::new(updates),
        reads: 0,
        writes,
    }))
}

/// The diagram of such a policy: one leaf. Refuses for memory alone.
pub(crate) fn in_one(
    nodes: &mut Nodes<Leaf>,
    groups: &Groups,
    ctx: &Context,
    pol: &Pol,
) -> Result<u64, NoMemory>
    requires alone { UpdatesAlone pol.now }
    requires fits { PolIn (sizes groups.now ctx.now) pol.now }
    ensures extends_arena { ExtendsArena nodes.old nodes.new }
    ensures diagram { IfOk result (IsWellFormedDiagram groups.now ctx.now nodes.new) }
    ensures small { IfOk result (λ d. PutsSmall pol.now) }
    ensures does { IfOk result (DoesAs ctx.now pol.now nodes.new) }
    ensures live { IfOk result (λ d. IsLive (Met ctx.now) (diagram nodes.new d)) }
{
    let alloc = nodes.allocator();
    let mut updates = Vec::new(alloc);
    let writes = push_all(groups, ctx, &mut updates, pol)?;
    let leaf = leaf(alloc, updates, writes)?;
    only(nodes, groups, ctx, leaf)
}
