//! Visits: what the owner of a rank does for a packet.

ghost use Rattle.std.specs.Prelude.{◌≡◌, ◌++◌, ◌==◌, List, Some, IfOk, OnOk, OnErr, filter, length};
ghost use Rattle.snap_core.specs.declared.policy.Update.{Update};
ghost use Rattle.snap_core.specs.Cells.{arrays_of};
ghost use Rattle.snap_rows.specs.Entries.{Parts, rank_at, rank_of, row_at};
ghost use Rattle.snap_rows.specs.Form.{comps};
ghost use Rattle.snap_rows.specs.Home.{AtHome};
ghost use Rattle.snap_rows.specs.Steps.{AppendsVisit, IsLast, IsVisitedAt};
ghost use Rattle.snap_rows.specs.declared.tables.Row.TheVariants.{Last};

use crate::dues::Dues;
use crate::head::Head;
use crate::tables::Row;
use crate::valid::Valid;
use crate::walk::{walk_cut, walk_ranked};
use snap_core::NoMemory;
use snap_core::packet::Packet;
use snap_core::policy::Update;
use snap_core::store::Store;
use std::alloc::Global;

// Puts a leaf's updates of arrays of one rank behind others.
#[inline(always)]
fn push_ranked<'a>(
    tables: &Valid,
    leaf: &'a [Update],
    rank: u16,
    ups: &mut Dues<'a>,
) -> Result<(), NoMemory>
    ensures ok { OnOk result (ups.new ≡ ups.old ++ filter (λ (u : Update). rank_of tables.now u.var == rank) leaf.now) }
    ensures err { OnErr result (ups.new ≡ ups.old) }
{
    let before = ups.len();
    for update in leaf {
        if tables.rank(update.var) == rank {
            if let Err(fault) = ups.push(update) {
                ups.truncate(before);
                return Err(fault);
            }
        }
    }
    Ok(())
}

// The updates of a leaf.
fn last_updates(leaf: &Row) -> &[Update]
    requires { IsLast leaf.now }
    ensures { (os : List Parts) × (leaf.now ≡ Last result.now os) }
{
    match leaf {
        Row::Last { ups, outs: _ } => ups.items(),
        _ => unreachable!(),
    }
}

/// Makes a visit at a number with this row, from which the rank can be visited: answers its number with that one's row, and
/// lends its updates, behind those before. Refuses for memory alone.
#[inline(always)]
pub(crate) fn visit_from<'a>(
    alloc: Global,
    tables: &'a Valid,
    at: u16,
    store: &Store,
    packet: &Packet,
    rank: u16,
    node: u64,
    first: &'a Row,
    ups: &mut Dues<'a>,
) -> Result<(u64, &'a Row), NoMemory>
    requires version { tables.now.version ≡ 2 }
    requires packet { length packet.now ≡ comps tables.now }
    requires home { IsVisitedAt tables.now at rank node }
    requires row { row_at tables.now at node ≡ Some first.now }
    ensures visit { IfOk result (λ v. AppendsVisit tables.now at packet.now (arrays_of store.now) rank node v.0 ups.old ups.new) }
    ensures row { IfOk result (λ v. row_at tables.now at v.0 ≡ Some v.1.now) }
    ensures memory { OnErr result (ups.new ≡ ups.old) }
{
    let _known = tables.tables();
    let (number, row) = walk_ranked(alloc, tables, at, store, packet, rank, node, first)?;
    let (_, leaf) = walk_cut(alloc, tables, at, store, packet, rank, number, row)?;
    push_ranked(tables, last_updates(leaf), rank, ups)?;
    Ok((number, row))
}

/// Makes a visit: answers its number and lends its updates, behind those before.
/// Refuses for memory alone.
pub fn visit<'a>(
    alloc: Global,
    tables: &'a Valid,
    at: u16,
    store: &Store,
    packet: &Packet,
    rank: u16,
    node: u64,
    ups: &mut Dues<'a>,
) -> Result<u64, NoMemory>
    requires packet { length packet.now ≡ comps tables.now }
    requires owner { rank_at tables.now rank ≡ Some at }
    requires home { AtHome tables.now at (Head.Visit rank node) }
    ensures visit { IfOk result (λ v. AppendsVisit tables.now at packet.now (arrays_of store.now) rank node v ups.old ups.new) }
    ensures memory { OnErr result (ups.new ≡ ups.old) }
{
    let first = tables.row_there(tables.shift(at), at, node);
    let (number, _) = visit_from(alloc, tables, at, store, packet, rank, node, first, ups)?;
    Ok(number)
}
