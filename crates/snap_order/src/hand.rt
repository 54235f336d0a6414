//! What a worker does with a copy at a switch of its own.

ghost use Rattle.std.specs.Prelude.{◌≡◌, [], ◌∷◌, IfOk, length};
ghost use Rattle.snap_core.specs.Cells.{arrays_of};
ghost use Rattle.snap_rows.specs.Entries.{ranks};
ghost use Rattle.snap_rows.specs.Form.{comps};
ghost use Rattle.snap_rows.specs.Stepping.{FateFits};
ghost use Rattle.snap_net.specs.Moves.{copies_in_flight, left_by, told_by};
ghost use Rattle.snap_order.specs.Hands.{InPlace, IsTwo, StepsHere};

use crate::counts::{InOrder, count, fate_behind, first_rank};
use snap_core::NoMemory;
use snap_core::store::Store;
use snap_net::flying::Flying;
use snap_net::happened::Moved;
use snap_rows::fork::{Spread, spread_out};
use snap_rows::head::{Fate, Head, Sent};
use snap_rows::plan::step;
use snap_rows::valid::Valid;
use std::alloc::Global;
use std::collections::VecDeque;

/// What a step of a copy gave, and the copies in its place.
#[derive(Drop)]
pub(crate) struct Stepped {
    pub moved: Moved,
    pub left: Vec<Flying>,
}

// The copies that a fork puts in the place of one.
fn forked(alloc: Global, number: u64, at: u16, copies: Vec<Sent>) -> Result<Vec<Flying>, NoMemory>
    ensures { IfOk result (λ left. left.items ≡ copies_in_flight number at copies.items) }
{
    let mut left = Vec::with_capacity(alloc, copies.len())?;
    let mut rest = VecDeque::from(copies);
    while let Some(sent) = rest.pop_front() {
        left.push(Flying {
            number,
            at,
            head: Head::Out { port: sent.port },
            packet: sent.packet,
        })?;
    }
    Ok(left)
}

// One copy alone.
fn alone(alloc: Global, copy: Flying) -> Result<Vec<Flying>, NoMemory>
    ensures { IfOk result (λ left. left.items ≡ copy ∷ []) }
{
    let mut left = Vec::new(alloc);
    left.push(copy)?;
    Ok(left)
}

// What becomes of a copy in its step.
fn leave(alloc: Global, tables: &Valid, copy: Flying, fate: Fate<'_>) -> Result<Stepped, NoMemory>
    requires packet { length copy.packet ≡ comps tables.now }
    requires fits { FateFits tables.now copy.at fate }
    ensures left { IfOk result (λ stepped. stepped.left.items ≡ left_by tables.now copy fate.entry) }
    ensures moved { IfOk result (λ stepped. stepped.moved ≡ told_by tables.now copy fate.entry) }
{
    let Flying {
        number,
        at,
        head,
        packet,
    } = copy;
    match fate {
        Fate::Seek { target, head } => {
            let to = tables.next(at, target);
            let left = alone(
                alloc,
                Flying {
                    number,
                    at: to,
                    head,
                    packet,
                },
            )?;
            let moved = Moved::Forwarded {
                number,
                from: at,
                to,
            };
            Ok(Stepped { moved, left })
        }
        Fate::Deliver { port } => {
            let moved = Moved::Delivered {
                number,
                port,
                packet,
            };
            Ok(Stepped {
                moved,
                left: Vec::new(alloc),
            })
        }
        Fate::Fork { outs } => {
            let Spread { copies, lost } = spread_out(alloc, tables, outs, &packet)?;
            let count = copies.len() as u64;
            let left = forked(alloc, number, at, copies)?;
            let moved = Moved::Forked {
                number,
                copies: count,
                lost,
            };
            Ok(Stepped { moved, left })
        }
        Fate::Stay { rank, node } => {
            let left = alone(
                alloc,
                Flying {
                    number,
                    at,
                    head: Head::Visit { rank, node },
                    packet,
                },
            )?;
            let moved = Moved::Stayed { number, rank };
            Ok(Stepped { moved, left })
        }
        Fate::Wait { rank } => {
            let left = alone(
                alloc,
                Flying {
                    number,
                    at,
                    head,
                    packet,
                },
            )?;
            let moved = Moved::Waited { number, rank };
            Ok(Stepped { moved, left })
        }
    }
}

/// Makes a copy's step at its switch, whose store this is.
pub(crate) fn step_here(
    alloc: Global,
    tables: &Valid,
    store: &mut Store,
    counts: &mut Vec<u64>,
    copy: Flying,
) -> Result<Stepped, NoMemory>
    requires tables { IsTwo tables.now }
    requires counts { length counts.old.items ≡ ranks tables.now }
    requires place { InPlace tables.now copy }
    ensures { IfOk result (λ stepped. StepsHere tables.now copy (arrays_of store.old) counts.old.items (arrays_of store.new) counts.new.items stepped.left.items stepped.moved) }
{
    let number = copy.number;
    let first = first_rank(tables, copy.head);
    let next = number.checked_add(1).ok_or(NoMemory)?;
    let admit = InOrder {
        counts: &*counts,
        number,
    };
    let fate = step(
        alloc,
        tables,
        &admit,
        copy.at,
        store,
        &copy.packet,
        copy.head,
    )?;
    count(counts, first, fate_behind(tables, first, fate), next);
    let stepped = leave(alloc, tables, copy, fate)?;
    Ok(stepped)
}
