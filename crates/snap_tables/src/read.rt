//! The text of tables, read.

ghost use Rattle.std.specs.Prelude.{◌≡◌, ◌≢◌, ◌⊎◌, ◌+◌, ◌<◌, [], Err, ℕ, IfOk, IfErr, OnOk, MatchOption, MatchResult};
ghost use Rattle.snap_tables.specs.Drafts.{IsFirstSplit, IsKept, IsLed, IsLineFault, IsNoFirst, IsPutLine, IsReadTo, first_body, is_last, tables_of};
ghost use Rattle.snap_tables.specs.Known.{AreKnown};
ghost use Rattle.snap_tables.specs.Lines.{IsRead};
ghost use Rattle.snap_tables.specs.declared.fault.TablesFault.TheVariants as fault;

use crate::draft::TablesDraft;
use crate::entries::{next_hop, next_item, next_row};
use crate::fault::TablesFault;
use crate::known::Known;
use crate::places::{Places, line_of};
use crate::scan::{is_text, split_line};
use snap_rows::calls::valid;
use snap_rows::tables::Refused;
use snap_rows::valid::Valid;
use std::alloc::Global;

// The version that the first line says.
fn version_of(line: &[u8]) -> Option<u8>
    ensures { MatchOption result ((v : ℕ) → (v ≡ 1) ⊎ (v ≡ 2) → line.now ≢ first_body v) (λ v. ((v ≡ 1) ⊎ (v ≡ 2)) × (line.now ≡ first_body v)) }
{
    if is_text(line, b"snap-tables 1") {
        Some(1)
    } else if is_text(line, b"snap-tables 2") {
        Some(2)
    } else {
        None
    }
}

// The version that the first line says, and the text behind that line.
fn first_said(text: &[u8]) -> Option<(u8, &[u8])>
    ensures { MatchOption result (IsNoFirst text.now) (λ pair. IsFirstSplit text.now pair.0 pair.1.now) }
{
    match split_line(text) {
        None => None,
        Some((line, behind)) => match version_of(line) {
            None => None,
            Some(version) => Some((version, behind)),
        },
    }
}

// Takes the line of a next hop.
fn take_hop(draft: &mut TablesDraft, number: u64, line: &[u8]) -> Result<(), TablesFault>
    requires kept { IsKept draft.old }
    requires first { IsLed 104 line.now }
    ensures { MatchResult result (λ _. IsPutLine draft.old line.now draft.new) (IsLineFault draft.old number line.now) }
{
    let Some(hop) = next_hop(draft, line) else {
        return Err(TablesFault::Line { line: number });
    };
    draft.put_hop(hop)?;
    Ok(())
}

// Takes the line of a row.
fn take_row<'a>(
    alloc: Global,
    draft: &mut TablesDraft,
    known: &mut Known<'a>,
    number: u64,
    line: &'a [u8],
) -> Result<(), TablesFault>
    requires kept { IsKept draft.old }
    requires known { AreKnown (tables_of draft.old) known.old.rows.items }
    requires first { IsLed 114 line.now }
    ensures known { OnOk result (AreKnown (tables_of draft.new) known.new.rows.items) }
    ensures line { MatchResult result (λ _. IsPutLine draft.old line.now draft.new) (IsLineFault draft.old number line.now) }
{
    let Some(row) = next_row(alloc, draft, known, line)? else {
        return Err(TablesFault::Line { line: number });
    };
    draft.put_row(row)?;
    Ok(())
}

// Takes a line with this first byte that says none of these.
fn take_other(
    alloc: Global,
    draft: &mut TablesDraft,
    number: u64,
    first: u8,
    line: &[u8],
) -> Result<(), TablesFault>
    requires kept { IsKept draft.old }
    requires hop { first ≢ 104 }
    requires row { first ≢ 114 }
    requires first { IsLed first line.now }
    ensures { MatchResult result (λ _. IsPutLine draft.old line.now draft.new) (IsLineFault draft.old number line.now) }
{
    let Some(item) = next_item(alloc, draft, first, line)? else {
        return Err(TablesFault::Line { line: number });
    };
    match draft.put(alloc, item)? {
        None => Ok(()),
        Some((which, count)) => Err(TablesFault::Limit { which, count }),
    }
}

// Takes a line: puts the entry that it says.
fn take_line<'a>(
    alloc: Global,
    draft: &mut TablesDraft,
    known: &mut Known<'a>,
    number: u64,
    line: &'a [u8],
) -> Result<(), TablesFault>
    requires kept { IsKept draft.old }
    requires known { AreKnown (tables_of draft.old) known.old.rows.items }
    ensures known { OnOk result (AreKnown (tables_of draft.new) known.new.rows.items) }
    ensures line { MatchResult result (λ _. IsPutLine draft.old line.now draft.new) (IsLineFault draft.old number line.now) }
{
    let Some((first, _)) = line.split_first() else {
        return Err(TablesFault::Line { line: number });
    };
    let first = *first;
    if first == b'r' {
        return take_row(alloc, draft, known, number, line);
    }
    // What the text of a row says hangs on the entries before all rows.
    known.forget();
    if first == b'h' {
        return take_hop(draft, number, line);
    }
    take_other(alloc, draft, number, first, line)
}

// Whether a line is the last one, where it may come.
fn is_last(draft: &TablesDraft, line: &[u8]) -> bool
    requires { IsKept draft.now }
    ensures { result ≡ is_last (tables_of draft.now) line.now }
{
    is_text(line, b"end") && draft.is_ready(8)
}

// The draft, where nothing stands behind its last line.
fn ended(draft: TablesDraft, next: u64, behind: &[u8]) -> Result<TablesDraft, TablesFault>
    ensures ok { IfOk result (λ d. (d ≡ draft) × (behind.now ≡ [])) }
    ensures err { IfErr result (λ e. (e ≡ fault.Line next) × (behind.now ≢ [])) }
{
    if behind.is_empty() {
        Ok(draft)
    } else {
        Err(TablesFault::Line { line: next })
    }
}

// The draft of all lines of a text.
fn read_lines(alloc: Global, text: &[u8]) -> Result<TablesDraft, TablesFault>
    ensures ok { IfOk result (IsReadTo text.now) }
    ensures err { IfErr result (λ e. IsRead text.now (Err e)) }
{
    let Some((version, first)) = first_said(text) else {
        return Err(TablesFault::Line { line: 1 });
    };
    let mut draft = TablesDraft::new(alloc, version);
    let mut known = Known::none(alloc);
    let mut number = 1;
    let mut rest = first;
    while let Some((line, behind)) = split_line(rest) {
        if is_last(&draft, line) {
            return ended(draft, number + 2, behind);
        }
        take_line(alloc, &mut draft, &mut known, number + 1, line)?;
        number += 1;
        rest = behind;
    }
    Err(TablesFault::Line { line: number + 1 })
}

/// The valid tables that a text spells, or the first thing that is wrong (`docs/FORMATS.md`, "Tables"). `Line` names the
/// first line that isn't of its form after the lines before it; `Limit` comes where a line is in form and passes a
/// count; `Broken` comes where the whole text is in form; and `NoMemory` for want of memory.
pub fn read(alloc: Global, text: &[u8]) -> Result<Valid, TablesFault>
    ensures { IsRead text.now result }
{
    let draft = read_lines(alloc, text)?;
    let places = Places::of(&draft);
    let tables = draft.tables(alloc)?;
    match valid(alloc, tables) {
        Ok(valid) => Ok(valid),
        Err(Refused::Broken { rule, spot }) => Err(TablesFault::Broken {
            rule,
            line: line_of(places, spot),
        }),
        Err(Refused::NoMemory) => Err(TablesFault::NoMemory),
    }
}
