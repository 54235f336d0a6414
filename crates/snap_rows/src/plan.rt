//! What one step does, worked out before anything is changed.

ghost use Rattle.std.specs.Prelude.{◌≡◌, ◌≢◌, ◌<◌, ◌++◌, ℕ, List, [], IfOk, IfSome, OnOk, IsSome, Some, length};
ghost use Rattle.snap_core.specs.declared.place.Place.{Place};
ghost use Rattle.snap_core.specs.declared.policy.Update.{Update};
ghost use Rattle.snap_core.specs.Arrays.{Arrays};
ghost use Rattle.snap_core.specs.Cells.{arrays_of};
ghost use Rattle.snap_rows.specs.declared.tables.Row.TheVariants.{Leaf, Last};
ghost use Rattle.snap_rows.specs.Entries.{row_at, rank_at, owner_of};
ghost use Rattle.snap_rows.specs.Form.{IsWellFormed, comps, switch_count};
ghost use Rattle.snap_rows.specs.Home.{AtHome};
ghost use Rattle.snap_rows.specs.Steps.{IsGoOrLeaf, IsLast};
ghost use Rattle.snap_rows.specs.Stepping.{FateArrives, FateFits, GoesBy, Steps, StepsBy, VisitsBy, held_back};

use crate::admit::Admit;
use crate::dues::Dues;
use crate::head::{Fate, Head};
use crate::tables::{Row, Stage};
use crate::valid::Valid;
use crate::visit::visit_from;
use crate::walk::{enter_row, walk};
use snap_core::NoMemory;
use snap_core::lists::Out;
use snap_core::packet::Packet;
use snap_core::policy::Update;
use snap_core::store::Store;
use std::alloc::Global;

// Lends updates behind others.
fn lend<'a>(lent: &'a [Update], ups: &mut Dues<'a>) -> Result<(), NoMemory>
    ensures { OnOk result (ups.new ≡ ups.old ++ lent.now) }
{
    for update in lent {
        ups.push(update)?;
    }
    Ok(())
}

// A copy on its way to a port.
fn to_port(tables: &Valid, at: u16, port: u32) -> Fate<'_>
    requires { AtHome tables.now at (Head.Out port) }
    ensures { (k : List ℕ) (m : Arrays) → GoesBy tables.now at k m (Head.Out port) [] result }
{
    let _known = tables.tables();
    match tables.port_at(port as u64) {
        Some(switch) => {
            if switch == at {
                Fate::Deliver { port }
            } else {
                Fate::Seek {
                    target: switch,
                    head: Head::Out { port },
                }
            }
        }
        None => unreachable!(),
    }
}

// A copy at a stage of a leaf.
#[inline(never)]
fn at_stage<'a>(
    tables: &'a Valid,
    at: u16,
    packet: &Packet,
    leaf: u64,
    stage: u16,
    ups: &mut Dues<'a>,
) -> Result<Fate<'a>, NoMemory>
    requires packet { length packet.now ≡ comps tables.now }
    requires home { AtHome tables.now at (Head.Stage leaf stage) }
    requires none { ups.old ≡ [] }
    ensures { IfOk result (λ fate. (m : Arrays) → GoesBy tables.now at packet.now m (Head.Stage leaf stage) ups.new fate) }
{
    match tables.row(at, leaf) {
        Some(Row::Leaf { stages, outs }) => {
            staged(
                tables,
                at,
                packet,
                leaf,
                stage,
                stages.items(),
                outs.items(),
                ups,
            )
        }
        _ => unreachable!(),
    }
}

// A copy at a stage of a leaf with these stages and outs.
fn staged<'a>(
    tables: &'a Valid,
    at: u16,
    packet: &Packet,
    leaf: u64,
    stage: u16,
    stages: &'a [Stage],
    outs: &'a [Out],
    ups: &mut Dues<'a>,
) -> Result<Fate<'a>, NoMemory>
    requires packet { length packet.now ≡ comps tables.now }
    requires form { IsWellFormed tables.now }
    requires row { row_at tables.now at leaf ≡ Some (Leaf stages.now outs.now) }
    requires more { stage < length stages.now }
    requires none { ups.old ≡ [] }
    ensures { IfOk result (λ fate. (m : Arrays) → GoesBy tables.now at packet.now m (Head.Stage leaf stage) ups.new fate) }
{
    let here = &stages[stage as usize];
    if here.at != at {
        return Ok(Fate::Seek {
            target: here.at,
            head: Head::Stage { leaf, stage },
        });
    }
    lend(here.ups.items(), ups)?;
    if stage as usize + 1 < stages.len() {
        let then = &stages[stage as usize + 1];
        return Ok(Fate::Seek {
            target: then.at,
            head: Head::Stage {
                leaf,
                stage: stage + 1,
            },
        });
    }
    Ok(Fate::Fork { outs })
}

// A copy that walked to a leaf with these stages and outs.
fn leafed<'a>(
    tables: &'a Valid,
    at: u16,
    packet: &Packet,
    leaf: u64,
    stages: &'a [Stage],
    outs: &'a [Out],
    ups: &mut Dues<'a>,
) -> Result<Fate<'a>, NoMemory>
    requires packet { length packet.now ≡ comps tables.now }
    requires form { IsWellFormed tables.now }
    requires row { row_at tables.now at leaf ≡ Some (Leaf stages.now outs.now) }
    requires none { ups.old ≡ [] }
    ensures { IfOk result (λ fate. (m : Arrays) → GoesBy tables.now at packet.now m (Head.Walk leaf) ups.new fate) }
{
    if stages.len() == 0 {
        return Ok(Fate::Fork { outs });
    }
    staged(tables, at, packet, leaf, 0, stages, outs, ups)
}

// A walk in version 1.
#[inline(never)]
fn walk_one<'a>(
    alloc: Global,
    tables: &'a Valid,
    at: u16,
    store: &Store,
    packet: &Packet,
    node: u64,
    ups: &mut Dues<'a>,
) -> Result<Fate<'a>, NoMemory>
    requires version { tables.now.version ≡ 1 }
    requires packet { length packet.now ≡ comps tables.now }
    requires row { IsSome (row_at tables.now at node) }
    requires none { ups.old ≡ [] }
    ensures { IfOk result (GoesBy tables.now at packet.now (arrays_of store.now) (Head.Walk node) ups.new) }
{
    let _known = tables.tables();
    let number = walk(alloc, tables, at, store, packet, node)?;
    decided(tables, at, packet, number, ups)
}

// A copy that walked to a number that asks nothing here.
fn decided<'a>(
    tables: &'a Valid,
    at: u16,
    packet: &Packet,
    number: u64,
    ups: &mut Dues<'a>,
) -> Result<Fate<'a>, NoMemory>
    requires packet { length packet.now ≡ comps tables.now }
    requires row { IsGoOrLeaf (row_at tables.now at number) }
    requires none { ups.old ≡ [] }
    ensures { IfOk result (λ fate. (m : Arrays) → GoesBy tables.now at packet.now m (Head.Walk number) ups.new fate) }
{
    match tables.row(at, number) {
        Some(Row::Go { to }) => {
            Ok(Fate::Seek {
                target: *to,
                head: Head::Walk { node: number },
            })
        }
        Some(Row::Leaf { stages, outs }) => {
            leafed(
                tables,
                at,
                packet,
                number,
                stages.items(),
                outs.items(),
                ups,
            )
        }
        _ => unreachable!(),
    }
}

// The switch of a rank that has one.
fn owner_of_rank(tables: &Valid, rank: u16) -> u16
    requires { IsSome (rank_at tables.now rank) }
    ensures { rank_at tables.now rank ≡ Some result }
{
    match tables.rank_at(rank) {
        Some(owner) => owner,
        None => unreachable!(),
    }
}

// The outs of a leaf of version 2.
pub(crate) fn last_outs(leaf: &Row) -> &[Out]
    requires { IsLast leaf.now }
    ensures { (us : List Update) × (leaf.now ≡ Last us result.now) }
{
    match leaf {
        Row::Last { ups: _, outs } => outs.items(),
        _ => unreachable!(),
    }
}

// The row of a number that has one, which may be known.
#[inline(always)]
fn row_of<'a>(tables: &'a Valid, at: u16, number: u64, known: Option<&'a Row>) -> &'a Row
    requires row { IsSome (row_at tables.now at number) }
    requires known { IfSome known (λ row. row_at tables.now at number ≡ Some row.now) }
    ensures { row_at tables.now at number ≡ Some result.now }
{
    match known {
        Some(row) => row,
        None => tables.row_there(tables.shift(at), at, number),
    }
}

// What becomes of a copy whose next visit, of the rank that is due at a number, isn't admitted, after visits from a rank on.
fn held_back<'a>(rank: u16, due: u16, number: u64) -> Fate<'a>
    ensures { result ≡ held_back rank due number }
{
    if due == rank {
        Fate::Wait { rank }
    } else {
        Fate::Stay {
            rank: due,
            node: number,
        }
    }
}

// What becomes of a copy from a visit on, at a number whose row may be known. The updates of all visits of the step are lent. All visits read the store as it
// was, since none reads what one of lesser rank changes.
#[inline(always)]
fn visits<'a, A: Admit>(
    alloc: Global,
    tables: &'a Valid,
    admit: &A,
    at: u16,
    store: &Store,
    packet: &Packet,
    rank: u16,
    node: u64,
    known: Option<&'a Row>,
    ups: &mut Dues<'a>,
) -> Result<Fate<'a>, NoMemory>
    requires packet { length packet.now ≡ comps tables.now }
    requires home { AtHome tables.now at (Head.Visit rank node) }
    requires known { IfSome known (λ row. row_at tables.now at node ≡ Some row.now) }
    requires none { ups.old ≡ [] }
    ensures { IfOk result (VisitsBy tables.now at packet.now (A.admits admit.now) (arrays_of store.now) rank node ups.new) }
{
    let _known = tables.tables();
    let mut due = rank;
    let mut number = node;
    let mut known = known;
    let mut owner = owner_of_rank(tables, rank);
    while owner == at {
        if !admit.admits(due) {
            return Ok(held_back(rank, due, number));
        }
        let first = row_of(tables, at, number, known);
        let (next, row) = visit_from(alloc, tables, at, store, packet, due, number, first, ups)?;
        number = next;
        known = Some(row);
        due += 1;
        if due == tables.ranks() {
            let outs = last_outs(row);
            return Ok(Fate::Fork { outs });
        }
        owner = owner_of_rank(tables, due);
    }
    Ok(Fate::Seek {
        target: owner,
        head: Head::Visit {
            rank: due,
            node: number,
        },
    })
}

// A walk in version 2.
#[inline(always)]
fn walk_two<'a, A: Admit>(
    alloc: Global,
    tables: &'a Valid,
    admit: &A,
    at: u16,
    store: &Store,
    packet: &Packet,
    node: u64,
    ups: &mut Dues<'a>,
) -> Result<Fate<'a>, NoMemory>
    requires version { tables.now.version ≡ 2 }
    requires packet { length packet.now ≡ comps tables.now }
    requires row { IsSome (row_at tables.now at node) }
    requires none { ups.old ≡ [] }
    ensures { IfOk result (StepsBy tables.now at packet.now (A.admits admit.now) (arrays_of store.now) (Head.Walk node) ups.new) }
{
    let _known = tables.tables();
    let (number, row) = enter_row(tables, at, packet, node);
    if tables.ranks() == 0 {
        let outs = last_outs(row);
        return Ok(Fate::Fork { outs });
    }
    visits(
        alloc,
        tables,
        admit,
        at,
        store,
        packet,
        0,
        number,
        Some(row),
        ups,
    )
}

/// What a step of a copy does, by a store that stays as it is: answers what becomes of the copy, and lends the updates to a
/// list that is empty before. It takes no memory for them or for copies of the packet. Refuses for memory alone.
#[inline(always)]
pub fn fate<'a, A: Admit>(
    alloc: Global,
    tables: &'a Valid,
    admit: &A,
    at: u16,
    store: &Store,
    packet: &Packet,
    head: Head,
    ups: &mut Dues<'a>,
) -> Result<Fate<'a>, NoMemory>
    requires at { at < switch_count tables.now }
    requires packet { length packet.now ≡ comps tables.now }
    requires home { AtHome tables.now at head }
    requires none { ups.old ≡ [] }
    ensures { IfOk result (StepsBy tables.now at packet.now (A.admits admit.now) (arrays_of store.now) head ups.new) }
{
    let _known = tables.tables();
    match head {
        Head::Walk { node } => {
            if tables.tables().version == 1 {
                walk_one(alloc, tables, at, store, packet, node, ups)
            } else {
                walk_two(alloc, tables, admit, at, store, packet, node, ups)
            }
        }
        Head::Stage { leaf, stage } => at_stage(tables, at, packet, leaf, stage, ups),
        Head::Out { port } => Ok(to_port(tables, at, port)),
        Head::Visit { rank, node } => {
            visits(
                alloc, tables, admit, at, store, packet, rank, node, None, ups,
            )
        }
    }
}

/// Makes a step of a copy: answers what becomes of the copy. A refusal, which is for memory alone, may leave some of the
/// updates done.
#[inline(always)]
pub fn step<'a, A: Admit>(
    alloc: Global,
    tables: &'a Valid,
    admit: &A,
    at: u16,
    store: &mut Store,
    packet: &Packet,
    head: Head,
) -> Result<Fate<'a>, NoMemory>
    requires at { at < switch_count tables.now }
    requires packet { length packet.now ≡ comps tables.now }
    requires home { AtHome tables.now at head }
    ensures steps { IfOk result (Steps tables.now at packet.now (A.admits admit.now) (arrays_of store.old) head (arrays_of store.new)) }
    ensures fits { IfOk result (FateFits tables.now at) }
    ensures arrives { IfOk result (FateArrives tables.now at) }
    ensures own { IfOk result (λ _. (p : Place) → arrays_of store.new p ≢ arrays_of store.old p → owner_of tables.now p.var ≡ Some at) }
{
    let _known = tables.tables();
    let mut ups = Dues::new(alloc);
    let fate = fate(alloc, tables, admit, at, store, packet, head, &mut ups)?;
    ups.apply(store, packet)?;
    Ok(fate)
}
