//! One big switch over a file of packets.

ghost use Rattle.std.specs.Prelude.{◌≡◌, ◌≤◌, ◌-◌, IfOk, IfSome, IsErrOf, true};
ghost use Rattle.snap_core.specs.Arrays.{zero_arrays};
ghost use Rattle.snap_core.specs.Cells.{arrays_of};
ghost use Rattle.snap_core.specs.Programs.{IsBounded};
ghost use Rattle.snap_io.specs.Causes.{NoneFell, Rose};
ghost use Rattle.snap_io.specs.Files.{file_of};
ghost use Rattle.snap_report.specs.OneSwitch.{WritesReport};

use crate::fault::TraceFault;
use crate::laid::{Laid, lay, run_laid_on};
pub use crate::packets::MOST_BYTES;
use crate::report::put_flow;
use crate::runner::{Machine, run_over};
use crate::tail::put_end;
use snap_core::NoMemory;
use snap_core::outcome::EvalFault;
use snap_core::packet::Packet;
use snap_core::program::{Fields, Program};
use snap_core::store::Store;
use snap_io::{Output, Shelf, Sink};
use std::alloc::Global;

/// One big switch between two packets: its program, which is laid out, its store, and the number of the next packet.
#[derive(Drop)]
pub(crate) struct Switch<'a> {
    alloc: Global,
    program: &'a Program,
    laid: Laid<'a>,
    store: Store,
    number: u64,
}

impl<'a> Switch<'a> {
    /// Before the first packet. Refuses for memory alone.
    fn new(alloc: Global, program: &'a Program) -> Result<Switch<'a>, NoMemory>
        ensures program { IfOk result (λ switch. switch.program.now ≡ program.now) }
        ensures laid { IfOk result (λ switch. switch.laid ≡ program.now.body) }
        ensures arrays { IfOk result (λ switch. arrays_of switch.store ≡ zero_arrays) }
        ensures number { IfOk result (λ switch. switch.number ≡ 1) }
    {
        let laid = lay(alloc, &program.body)?;
        Ok(Switch {
            alloc,
            program,
            laid,
            store: Store::new(alloc),
            number: 1,
        })
    }
}

impl<'a> Machine for Switch<'a> {
    ghost use Rattle.snap_report.specs.Switching.{IsReady, Refuses, Reports, Stands};

    ghost fields = { λ switch. switch.program.now.fields };

    ghost count = { λ switch. switch.number - 1 };

    ghost accepts = { λ switch before packet. true };

    ghost is_ready = { IsReady };

    ghost stands = { Stands };

    ghost reports = { Reports };

    ghost refuses = { Refuses };

    ghost is_partial = { Unit {0} };

    fn fields(&self) -> &Fields {
        &self.program.fields
    }

    fn take(
        &mut self,
        text: &mut Vec<u8>,
        port: u32,
        packet: &mut Packet,
        line: u64,
    ) -> Result<(), TraceFault> {
        match run_laid_on(self.alloc, &self.laid, &mut self.store, packet) {
            Ok(ran) => {
                let fields = &self.program.fields;
                put_flow(self.alloc, text, fields, self.number, packet, ran.flow)?;
                self.number += 1;
                Ok(())
            }
            Err(EvalFault::Undefined) => Err(TraceFault::Undefined {
                packet: self.number,
            }),
            Err(EvalFault::NoMemory) => Err(TraceFault::NoMemory),
        }
    }

    fn put_end<K: Sink>(&mut self, out: &mut Output, sink: &mut K) -> Result<(), TraceFault> {
        let listing = self.store.listing()?;
        put_end(out, sink, &self.program.arrays, &listing)?;
        Ok(())
    }
}

/// Writes the report of one big switch over the packets file with this name (`docs/FORMATS.md`, "Reports"): packets are
/// evaluated in the order of their lines, and the store is carried from one to the next.
///
/// What is read is written in pieces, and what waits is written before each read.
///
/// # Errors
///
/// `Packets` at the first line that isn't in form or has more than `MOST_LINE` bytes; `Limit` where the file has more
/// than `MOST_LINES` lines or `MOST_BYTES` bytes; `Undefined` at the first packet on which evaluation is undefined: the
/// blocks of the packets before have gone out. `Read` only where the shelf's count of faults at the packets file rose,
/// `Write` only where the sink's rose, `NoMemory` for want of memory: some first bytes of the report have gone out.
pub fn one_switch<S: Shelf, K: Sink>(
    alloc: Global,
    shelf: &mut S,
    packets: &[u8],
    program: &Program,
    sink: &mut K,
) -> Result<(), TraceFault>
    requires { IsBounded program.now }
    ensures report { IfSome (S.files shelf.old) (λ files.
        WritesReport program.now (file_of files packets.now) result (K.taken sink.old) (K.taken sink.new)) }
    ensures read { IsErrOf result TraceFault.Read → Rose (S.faults shelf.old packets.now) (S.faults shelf.new packets.now) }
    ensures write { IsErrOf result TraceFault.Write → Rose (K.faults sink.old) (K.faults sink.new) }
    ensures files { S.files shelf.new ≡ S.files shelf.old }
    ensures later { NoneFell (S.faults shelf.old) (S.faults shelf.new) }
    ensures sink_later { K.faults sink.old ≤ K.faults sink.new }
{
    let mut switch = Switch::new(alloc, program)?;
    run_over(alloc, &mut switch, shelf, packets, sink)
}
