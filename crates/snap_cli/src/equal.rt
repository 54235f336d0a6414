//! The command `equal`: whether two programs mean the same.

ghost use Rattle.std.specs.Prelude.{◌↔◌, IfSome, IsTrue};
ghost use Rattle.snap_core.specs.Cells.{arrays_of};
ghost use Rattle.snap_core.specs.Programs.{IsWellFormed};
ghost use Rattle.snap_words.specs.Commands.{equal};
ghost use Rattle.snap_equal.specs.Same.{TellApart};
ghost use Rattle.snap_cli.specs.Causes.{OnlyWrites, ReadsAndWrites};
ghost use Rattle.snap_cli.specs.Check.{HasWhole};
ghost use Rattle.snap_cli.specs.Deserved.{Meets};
ghost use Rattle.snap_cli.specs.Equal.{AreDeclaredAlike, Compares, IsDifferenceTold, MeetsEqual};
ghost use Rattle.snap_cli.specs.Statuses.{EndsWith, statuses_of};

use crate::diagram::diagram;
use crate::pair::pair_text;
use crate::program::load_program;
use crate::refusal::Refusal;
use snap_build::building::Built;
use snap_build::laws::whole_programs_never_race;
use snap_core::alike::{same_fields, same_names};
use snap_core::packet::Packet;
use snap_core::program::Program;
use snap_core::store::Store;
use snap_equal::comparing::{Compared, compare};
use snap_io::{Shelf, Sink, write_whole};
use std::alloc::Global;

/// Writes `equal` where two programs mean the same; else the refusal says that their declarations differ, or tells a store
/// and a packet on which one of them races or they differ.
pub(crate) fn report<'a, S: Shelf, O: Sink>(
    alloc: Global,
    left: &'a [u8],
    right: &'a [u8],
    shelf: &mut S,
    out: &mut O,
) -> Result<(), Refusal<'a>>
    ensures meets { IfSome (S.files shelf.old) (λ files.
        Meets files (equal left.entry.now right.entry.now) result (O.taken out.old) (O.taken out.new)) }
    ensures devices { ReadsAndWrites (S.files shelf.old) (S.files shelf.new) (S.faults shelf.old) (S.faults shelf.new)
        (O.faults out.old) (O.faults out.new) result }
    ensures statuses { EndsWith (statuses_of (equal left.entry.now right.entry.now)) result }
{
    let first = load_program(alloc, shelf, left)?;
    let second = load_program(alloc, shelf, right)?;
    answer(alloc, &first, &second, out)
}

// Writes the answer of two programs that were read.
fn answer<'a, O: Sink>(
    alloc: Global,
    left: &Program,
    right: &Program,
    out: &mut O,
) -> Result<(), Refusal<'a>>
    requires left { IsWellFormed left.now }
    requires right { IsWellFormed right.now }
    ensures meets { MeetsEqual left.now right.now result (O.taken out.old) (O.taken out.new) }
    ensures devices { OnlyWrites (O.faults out.old) (O.faults out.new) result }
{
    judge(alloc, left, right)?;
    match write_whole(out, b"equal\n") {
        Ok(()) => Ok(()),
        Err(_) => Err(Refusal::Write),
    }
}

// Whether two programs have equal lists of fields and of names of arrays.
fn are_declared_alike(left: &Program, right: &Program) -> bool
    ensures { IsTrue result ↔ AreDeclaredAlike left.now right.now }
{
    same_fields(left.fields.list(), right.fields.list())
        && same_names(left.arrays.items(), right.arrays.items())
}

// Whether two programs mean the same.
fn judge<'a>(alloc: Global, left: &Program, right: &Program) -> Result<(), Refusal<'a>>
    requires left { IsWellFormed left.now }
    requires right { IsWellFormed right.now }
    ensures { Compares left.now right.now result }
{
    if !are_declared_alike(left, right) {
        return Err(Refusal::Declarations);
    }
    let first = diagram(alloc, left)?;
    judge_second(alloc, left, right, &first)
}

// The same where the first never races.
fn judge_second<'a>(
    alloc: Global,
    left: &Program,
    right: &Program,
    first: &Built,
) -> Result<(), Refusal<'a>>
    requires left { IsWellFormed left.now }
    requires right { IsWellFormed right.now }
    requires alike { AreDeclaredAlike left.now right.now }
    requires first { HasWhole left.now first.now.nodes first.now.root }
    ensures { Compares left.now right.now result }
{
    whole_programs_never_race();
    let second = diagram(alloc, right)?;
    judge_both(alloc, left, right, first, &second)
}

// The same where neither races.
fn judge_both<'a>(
    alloc: Global,
    left: &Program,
    right: &Program,
    first: &Built,
    second: &Built,
) -> Result<(), Refusal<'a>>
    requires left { IsWellFormed left.now }
    requires right { IsWellFormed right.now }
    requires alike { AreDeclaredAlike left.now right.now }
    requires first { HasWhole left.now first.now.nodes first.now.root }
    requires second { HasWhole right.now second.now.nodes second.now.root }
    ensures { Compares left.now right.now result }
{
    whole_programs_never_race();
    let (comps, arrays) = (left.fields.count(), left.arrays.items().len() as u16);
    match compare(
        &first.nodes,
        first.root,
        &second.nodes,
        second.root,
        comps,
        arrays,
    ) {
        Ok(Compared::Same) => Ok(()),
        Ok(Compared::Differ { store, packet }) => Err(differ(alloc, left, right, &store, &packet)),
        Err(_) => Err(Refusal::NoMemory),
    }
}

// The refusal of two programs that differ on a store and a packet. Its text is made here, before the status is settled.
fn differ<'a>(
    alloc: Global,
    left: &Program,
    right: &Program,
    store: &Store,
    packet: &Packet,
) -> Refusal<'a>
    requires { TellApart left.now right.now (arrays_of store.now) packet.now }
    ensures { IsDifferenceTold left.now right.now result }
{
    match pair_text(alloc, b"snapc: differ\n", left, store, packet) {
        Ok(text) => Refusal::Differ { text },
        Err(_) => Refusal::NoMemory,
    }
}
