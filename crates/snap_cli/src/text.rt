//! The text of a file.

ghost use Rattle.std.specs.Prelude.{◌<◌, ◌≤◌, ◌-◌, ◌^◌, ◌∷◌, [], IfErr, IfOk, IfSome, length};
ghost use Rattle.snap_io.specs.Files.{file_of};
ghost use Rattle.snap_cli.specs.Causes.{OnlyReads};
ghost use Rattle.snap_cli.specs.Texts.{GivesText};
ghost use Rattle.snap_cli.specs.Statuses.{RefusesWith};

use crate::refusal::Refusal;
use snap_core::program::Which;
use snap_io::{ReadRefusal, Shelf, read_whole};
use std::alloc::Global;

/// Reads the text of a file of at most `most` bytes.
pub(crate) fn load_text<'a, S: Shelf>(
    alloc: Global,
    shelf: &mut S,
    name: &'a [u8],
    most: u64,
) -> Result<Vec<u8>, Refusal<'a>>
    requires { most < 2 ^ 64 - 1 }
    ensures gives { IfSome (S.files shelf.old) (λ files. GivesText most name.entry.now (file_of files name.entry.now) result) }
    ensures bound { IfOk result (λ text. length text.items ≤ most) }
    ensures devices { OnlyReads (S.files shelf.old) (S.files shelf.new) (S.faults shelf.old) (S.faults shelf.new) result }
    ensures statuses { IfErr result (RefusesWith (2 ∷ 6 ∷ [])) }
{
    match read_whole(alloc, shelf, name, most) {
        Ok(text) => Ok(text),
        Err(ReadRefusal::Failed) => Err(Refusal::Read { name }),
        Err(ReadRefusal::TooLong) => Err(Refusal::Limit {
            which: Which::Bytes,
            count: most + 1,
        }),
        Err(ReadRefusal::NoMemory) => Err(Refusal::NoMemory),
    }
}
