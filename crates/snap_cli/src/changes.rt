//! `trace --changes`: the report of tables that change between packets.

ghost use Rattle.std.specs.Prelude.{◌≡◌, ◌++◌, ◌∷◌, [], IfErr, IfOk, IfSome, OnOk};
ghost use Rattle.snap_io.specs.Files.{file_of};
ghost use Rattle.snap_runs.specs.Changing.{HaveShapeOf, IsRising};
ghost use Rattle.snap_runs.specs.ChangeLines.{AreRising};
ghost use Rattle.snap_runs.specs.Shapes.{HaveOneShape};
ghost use Rattle.snap_cli.specs.Causes.{BlamesNoDevice, OnlyReads, ReadsAndWrites};
ghost use Rattle.snap_cli.specs.Changes.{refusal_of_changes};
ghost use Rattle.snap_cli.specs.ChangesSteps.{GivesChanges, LoadsChanges, LoadsLater, LoadsLaters, MeetsChanges, MeetsLater, ReadsChanges, afters, afters_of};
ghost use Rattle.snap_cli.specs.Texts.{GivesText};
ghost use Rattle.snap_cli.specs.TraceSteps.{LoadsTables};
ghost use Rattle.snap_cli.specs.Statuses.{EndsWith, RefusesWith, statuses_of_trace};
ghost use Rattle.snap_words.specs.Commands.{changes, plain};

use crate::obs::refusal_of_run;
use crate::refusal::Refusal;
use crate::tables::{MOST_TABLES, read_tables};
use crate::text::load_text;
use snap_core::program::Which;
use snap_io::{ReadRefusal, Shelf, Sink, read_whole};
use snap_rows::valid::Valid;
use snap_runs::change::{Change, ChangesFault, read_changes};
use snap_runs::later::Later;
use snap_runs::shape::same_shape;
use snap_runs::trace_changes::trace_changes;
use std::alloc::Global;

/// The most bytes of a changes file.
pub const MOST_CHANGES_BYTES: u64 = 1_048_576;

/// Writes the report of tables that were read, over the packets file, where the tables change as the changes file with
/// this name says.
pub(crate) fn report_changed<'a, S: Shelf, O: Sink>(
    alloc: Global,
    tables: Valid,
    packets: &'a [u8],
    lines: &'a [u8],
    hops: bool,
    shelf: &mut S,
    out: &mut O,
) -> Result<(), Refusal<'a>>
    ensures meets { IfSome (S.files shelf.old) (λ files. MeetsChanges files tables hops packets.entry lines.entry.now result (O.taken out.old) (O.taken out.new)) }
    ensures devices { ReadsAndWrites (S.files shelf.old) (S.files shelf.new) (S.faults shelf.old) (S.faults shelf.new)
        (O.faults out.old) (O.faults out.new) result }
    ensures statuses { EndsWith (statuses_of_trace (changes lines.entry.now)) result }
{
    let later = load_changes(alloc, shelf, &tables, lines)?;
    report_later(alloc, tables, later, packets, hops, shelf, out)
}

// Writes the report of tables that were all read.
fn report_later<'a, S: Shelf, O: Sink>(
    alloc: Global,
    tables: Valid,
    later: Vec<Later>,
    packets: &'a [u8],
    hops: bool,
    shelf: &mut S,
    out: &mut O,
) -> Result<(), Refusal<'a>>
    requires shapes { HaveShapeOf tables later.items }
    requires rising { IsRising later.items }
    ensures meets { IfSome (S.files shelf.old) (λ files.
        MeetsLater tables later.items hops packets.entry (file_of files packets.entry.now) result (O.taken out.old) (O.taken out.new)) }
    ensures devices { ReadsAndWrites (S.files shelf.old) (S.files shelf.new) (S.faults shelf.old) (S.faults shelf.new)
        (O.faults out.old) (O.faults out.new) result }
    ensures statuses { EndsWith (statuses_of_trace plain) result }
{
    match trace_changes(alloc, shelf, packets, tables, later, hops, out) {
        Ok(()) => Ok(()),
        Err(fault) => Err(refusal_of_run(packets, fault)),
    }
}

// The tables of the changes file with this name, in their order.
fn load_changes<'a, S: Shelf>(
    alloc: Global,
    shelf: &mut S,
    first: &Valid,
    name: &'a [u8],
) -> Result<Vec<Later>, Refusal<'a>>
    ensures gives { IfSome (S.files shelf.old) (λ files. LoadsChanges files first.now name.entry.now result) }
    ensures shapes { IfOk result (λ later. HaveShapeOf first.now later.items) }
    ensures rising { IfOk result (λ later. IsRising later.items) }
    ensures devices { OnlyReads (S.files shelf.old) (S.files shelf.new) (S.faults shelf.old) (S.faults shelf.new) result }
    ensures statuses { IfErr result (RefusesWith (2 ∷ 6 ∷ 11 ∷ 20 ∷ [])) }
{
    let changes = match load_lines(alloc, shelf, name) {
        Ok(changes) => changes,
        Err(refusal) => return Err(refusal),
    };
    load_all(alloc, shelf, first, &changes)
}

// The changes that the file with this name says.
fn load_lines<'a, S: Shelf>(
    alloc: Global,
    shelf: &mut S,
    name: &'a [u8],
) -> Result<Vec<Change>, Refusal<'a>>
    ensures gives { IfSome (S.files shelf.old) (λ files. GivesChanges name.entry.now (file_of files name.entry.now) result) }
    ensures rising { IfOk result (λ changes. AreRising changes.items) }
    ensures devices { OnlyReads (S.files shelf.old) (S.files shelf.new) (S.faults shelf.old) (S.faults shelf.new) result }
    ensures statuses { IfErr result (RefusesWith (2 ∷ 6 ∷ 20 ∷ [])) }
{
    let text = load_text(alloc, shelf, name, MOST_CHANGES_BYTES)?;
    read_lines(alloc, &text)
}

// The changes that a text says.
fn read_lines<'a>(alloc: Global, text: &[u8]) -> Result<Vec<Change>, Refusal<'a>>
    ensures reads { ReadsChanges text.now result }
    ensures rising { IfOk result (λ changes. AreRising changes.items) }
    ensures devices { IfErr result BlamesNoDevice }
{
    match read_changes(alloc, text) {
        Ok(changes) => Ok(changes),
        Err(fault) => Err(refusal_of_changes(fault)),
    }
}

fn refusal_of_changes<'a>(fault: ChangesFault) -> Refusal<'a>
    ensures { result ≡ refusal_of_changes fault }
{
    match fault {
        ChangesFault::Line { line } => Refusal::Changes { line },
        ChangesFault::Limit { which, count } => Refusal::Limit { which, count },
        ChangesFault::NoMemory => Refusal::NoMemory,
    }
}

// The tables of all changes. Each has the shape of the first tables.
fn load_all<'a, S: Shelf>(
    alloc: Global,
    shelf: &mut S,
    first: &Valid,
    changes: &[Change],
) -> Result<Vec<Later>, Refusal<'a>>
    ensures gives { IfSome (S.files shelf.old) (λ files. LoadsLaters files first.now changes.now result) }
    ensures shapes { IfOk result (λ later. HaveShapeOf first.now later.items) }
    ensures afters { IfOk result (λ later. afters later.items ≡ afters_of changes.now) }
    ensures devices { OnlyReads (S.files shelf.old) (S.files shelf.new) (S.faults shelf.old) (S.faults shelf.new) result }
    ensures statuses { IfErr result (RefusesWith (2 ∷ 6 ∷ 11 ∷ 20 ∷ [])) }
{
    let mut later = Vec::new(alloc);
    for change in changes {
        let next = load_later(alloc, shelf, first, change)?;
        push_later(&mut later, next)?;
    }
    Ok(later)
}

// Puts tables behind the others.
fn push_later<'a>(later: &mut Vec<Later>, next: Later) -> Result<(), Refusal<'a>>
    ensures pushed { OnOk result (later.new.items ≡ later.old.items ++ next ∷ []) }
    ensures memory { IfErr result (λ e. e ≡ Refusal.NoMemory) }
{
    match later.push(next) {
        Ok(()) => Ok(()),
        Err(_) => Err(Refusal::NoMemory),
    }
}

// The tables of a change.
fn load_later<'a, S: Shelf>(
    alloc: Global,
    shelf: &mut S,
    first: &Valid,
    change: &Change,
) -> Result<Later, Refusal<'a>>
    ensures gives { IfSome (S.files shelf.old) (λ files. LoadsLater files first.now change.now result) }
    ensures shape { IfOk result (λ later. HaveOneShape later.tables first.now) }
    ensures after { IfOk result (λ later. later.after ≡ change.now.after) }
    ensures devices { OnlyReads (S.files shelf.old) (S.files shelf.new) (S.faults shelf.old) (S.faults shelf.new) result }
    ensures statuses { IfErr result (RefusesWith (2 ∷ 6 ∷ 11 ∷ 20 ∷ [])) }
{
    let tables = match load_named(alloc, shelf, change) {
        Ok(tables) => tables,
        Err(refusal) => return Err(refusal),
    };
    if !same_shape(&tables, first) {
        return Err(Refusal::Changes { line: change.line });
    }
    Ok(Later {
        after: change.after,
        tables,
    })
}

// The tables that the file of a change spells.
fn load_named<'a, S: Shelf>(
    alloc: Global,
    shelf: &mut S,
    change: &Change,
) -> Result<Valid, Refusal<'a>>
    ensures gives { IfSome (S.files shelf.old) (λ files. LoadsTables change.now.name (file_of files change.now.name) result) }
    ensures devices { OnlyReads (S.files shelf.old) (S.files shelf.new) (S.faults shelf.old) (S.faults shelf.new) result }
    ensures statuses { IfErr result (RefusesWith (2 ∷ 6 ∷ 11 ∷ [])) }
{
    let text = load_bytes(alloc, shelf, change)?;
    read_tables(alloc, &text)
}

// The text of the file of a change. Its name stands in the changes file alone, so a refusal has a copy of it.
fn load_bytes<'a, S: Shelf>(
    alloc: Global,
    shelf: &mut S,
    change: &Change,
) -> Result<Vec<u8>, Refusal<'a>>
    ensures gives { IfSome (S.files shelf.old) (λ files. GivesText 67108864 change.now.name (file_of files change.now.name) result) }
    ensures devices { OnlyReads (S.files shelf.old) (S.files shelf.new) (S.faults shelf.old) (S.faults shelf.new) result }
    ensures statuses { IfErr result (RefusesWith (2 ∷ 6 ∷ [])) }
{
    match read_whole(alloc, shelf, change.name.items(), MOST_TABLES) {
        Ok(text) => Ok(text),
        Err(ReadRefusal::Failed) => match change.name.copy() {
            Ok(name) => Err(Refusal::ReadChange { name }),
            Err(_) => Err(Refusal::NoMemory),
        },
        Err(ReadRefusal::TooLong) => Err(Refusal::Limit {
            which: Which::Bytes,
            count: MOST_TABLES + 1,
        }),
        Err(ReadRefusal::NoMemory) => Err(Refusal::NoMemory),
    }
}
