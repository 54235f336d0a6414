//! The tables of a file.

ghost use Rattle.std.specs.Prelude.{◌≡◌, ◌∷◌, [], IfErr, IfSome};
ghost use Rattle.snap_io.specs.Files.{file_of};
ghost use Rattle.snap_cli.specs.Causes.{BlamesNoDevice, OnlyReads};
ghost use Rattle.snap_cli.specs.TraceSteps.{LoadsTables, ReadsTables, refusal_of_tables};
ghost use Rattle.snap_cli.specs.Statuses.{RefusesWith};

use crate::refusal::{NoTables, Refusal};
use crate::text::load_text;
use snap_io::Shelf;
use snap_rows::valid::Valid;
use snap_tables::fault::TablesFault;
use snap_tables::read::read;
use std::alloc::Global;

/// The most bytes of a file of tables.
pub const MOST_TABLES: u64 = 67_108_864;

/// Reads a file of tables, and the valid tables that it spells.
pub(crate) fn load_tables<'a, S: Shelf>(
    alloc: Global,
    shelf: &mut S,
    name: &'a [u8],
) -> Result<Valid, Refusal<'a>>
    ensures gives { IfSome (S.files shelf.old) (λ files. LoadsTables name.entry.now (file_of files name.entry.now) result) }
    ensures devices { OnlyReads (S.files shelf.old) (S.files shelf.new) (S.faults shelf.old) (S.faults shelf.new) result }
    ensures statuses { IfErr result (RefusesWith (2 ∷ 6 ∷ 11 ∷ [])) }
{
    let text = load_text(alloc, shelf, name, MOST_TABLES)?;
    read_tables(alloc, &text)
}

// The valid tables that a text spells.
pub(crate) fn read_tables<'a>(alloc: Global, text: &[u8]) -> Result<Valid, Refusal<'a>>
    ensures reads { ReadsTables text.now result }
    ensures devices { IfErr result BlamesNoDevice }
{
    match read(alloc, text) {
        Ok(tables) => Ok(tables),
        Err(fault) => Err(refusal_of_tables(fault)),
    }
}

// The refusal of a text that spells no valid tables.
fn refusal_of_tables<'a>(fault: TablesFault) -> Refusal<'a>
    ensures { result ≡ refusal_of_tables fault }
{
    let fault = match fault {
        TablesFault::Line { line } => NoTables::Line { line },
        TablesFault::Limit { which, count } => return Refusal::Limit { which, count },
        TablesFault::Broken { rule, line } => NoTables::Broken { rule, line },
        TablesFault::NoMemory => return Refusal::NoMemory,
    };
    Refusal::Tables { fault }
}
