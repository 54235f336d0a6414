//! The message that tells a store and a packet.

ghost use Rattle.std.specs.Prelude.{◌≡◌, IfOk, length};
ghost use Rattle.snap_core.specs.Cells.{arrays_of};
ghost use Rattle.snap_core.specs.Fields.{count};
ghost use Rattle.snap_cli.specs.Pairs.{TellsPair};

use snap_core::NoMemory;
use snap_core::packet::Packet;
use snap_core::program::Program;
use snap_core::store::Store;
use snap_report::report::{put_arrays, put_fields};
use std::alloc::Global;

/// The message of a store and a packet of a program behind a first line.
pub(crate) fn pair_text(
    alloc: Global,
    first: &[u8],
    program: &Program,
    store: &Store,
    packet: &Packet,
) -> Result<Vec<u8>, NoMemory>
    requires { length packet.now ≡ count program.now.fields }
    ensures { IfOk result (λ text. TellsPair first.now program.now (arrays_of store.now) packet.now text.items) }
{
    let listed = store.listing()?;
    let mut text = Vec::new(alloc);
    text.extend_from_slice(first)?;
    put_arrays(&mut text, &program.arrays, &listed)?;
    text.extend_from_slice(b"packet")?;
    put_fields(&mut text, &program.fields, packet)?;
    Ok(text)
}
