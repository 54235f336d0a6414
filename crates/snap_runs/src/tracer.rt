//! A network that takes packets one after another, by the plain schedule.

ghost use Rattle.std.specs.Prelude.{◌≡◌, ◌≢◌, ◌≤◌, ◌+◌, ◌<◌, ◌^◌, [], None, IfErr, IfOk, IsSome, OnOk, length, slice_index};
ghost use Rattle.std.specs.List.{All};
ghost use Rattle.snap_core.specs.Arrays.{zero_arrays};
ghost use Rattle.snap_rows.specs.Entries.{port_at};
ghost use Rattle.snap_rows.specs.Form.{array_count, comps};
ghost use Rattle.snap_rows.specs.Network.{Net as State, start};
ghost use Rattle.snap_net.specs.declared.net.InjectFault.{InjectFault};
ghost use Rattle.snap_net.specs.Passing.{Passes, lost_in, sent_in};
ghost use Rattle.snap_net.specs.Shown.{Represents};
ghost use Rattle.snap_runs.specs.Reports.{PutsEnd};

use crate::frames::Frames;
use crate::tail::put_end;
use crate::tally::Tally;
use snap_core::NoMemory;
use snap_core::packet::Packet;
use snap_core::program::Fields;
use snap_io::{Output, Sink};
use snap_net::net::{InjectFault, Net, open_net};
use snap_net::passing::Passed;
use snap_net::watch::Unwatched;
use snap_report::TraceFault;
use snap_report::runner::Machine;
use snap_rows::valid::Valid;
use std::alloc::Global;

/// A network between two packets, and room for what happens to a packet.
#[derive(Drop)]
pub struct Tracer {
    net: Net,
    hops: bool,
    frames: Frames,
    tally: Tally,
    ghost rests: { net.flying ≡ [] },
}

impl Tracer {
    ghost use Rattle.snap_runs.specs.Tracing.{TakesPacket, Traces, changed};

    /// Before the first packet. With `hops` a line of the report tells each link that a copy crosses, by a frame of this
    /// kind. Refuses for memory alone.
    pub fn new(alloc: Global, tables: Valid, hops: bool, frames: Frames) -> Result<Tracer, NoMemory>
        ensures tables { IfOk result (λ tracer. tracer.net.tables ≡ tables) }
        ensures hops { IfOk result (λ tracer. tracer.hops ≡ hops) }
        ensures frames { IfOk result (λ tracer. tracer.frames ≡ frames) }
        ensures injected { IfOk result (λ tracer. tracer.net.injected ≡ 0) }
        ensures start { IfOk result (λ tracer. Represents tracer.net (start tables zero_arrays)) }
    {
        let net = open_net(alloc, tables)?;
        Ok(Tracer {
            net,
            hops,
            frames,
            tally: Tally::new(alloc),
        })
    }

    /// The fields of the tables. Takes no memory.
    pub fn fields(&self) -> &Fields
        ensures { result.now ≡ self.now.net.tables.fields }
    {
        fields_of(&self.net)
    }

    /// The number of packets that were taken. Takes no memory.
    pub fn taken(&self) -> u64
        ensures { result ≡ self.now.net.injected }
    {
        self.net.injected()
    }

    /// Puts the end of the report: the places that aren't 0. Refuses for memory alone.
    pub fn put_places(&self, text: &mut Vec<u8>) -> Result<(), NoMemory>
        ensures { OnOk result (PutsEnd self.now.net text.old.items text.new.items) }
    {
        put_end(text, &self.net)
    }

    /// Puts these tables in the place of the old ones, with the same number of packets taken and the same whole store.
    /// Refuses for memory alone.
    pub fn change(&mut self, tables: Valid) -> Result<(), NoMemory>
        requires { array_count tables ≡ array_count self.old.net.tables }
        ensures tables { OnOk result (self.new.net.tables ≡ tables) }
        ensures changed { OnOk result ((s : State) → Represents self.old.net s → Represents self.new.net (changed tables self.old.net.tables s)) }
        ensures injected { self.new.net.injected ≡ self.old.net.injected }
        ensures hops { self.new.hops ≡ self.old.hops }
        ensures frames { self.new.frames ≡ self.old.frames }
    {
        self.net.rehouse(tables)?;
        Ok(())
    }

    /// Takes a packet of the line with this number: it passes through the network, in its own memory, and its block is put
    /// behind the text.
    ///
    /// # Errors
    ///
    /// `Packets` with the line where the tables have no such port, and `NoMemory`.
    pub fn take_packet(
        &mut self,
        text: &mut Vec<u8>,
        port: u32,
        packet: &mut Packet,
        line: u64,
    ) -> Result<(), TraceFault>
        requires packet { length packet.old ≡ comps self.old.net.tables }
        requires port { slice_index packet.old 0 ≡ port }
        requires room { self.old.net.injected < 2 ^ 63 }
        ensures takes { TakesPacket line port packet.old self.old self.new text.old.items text.new.items result }
        ensures long { length packet.new ≡ length packet.old }
        ensures tables { self.new.net.tables ≡ self.old.net.tables }
        ensures hops { self.new.hops ≡ self.old.hops }
        ensures frames { self.new.frames ≡ self.old.frames }
        ensures injected { self.new.net.injected ≤ self.old.net.injected + 1 }
    {
        let number = self.net.injected() + 1;
        let passed = match self.pass(port, packet) {
            Ok(passed) => passed,
            Err(InjectFault::NoPort) => return Err(TraceFault::Packets { line }),
            Err(InjectFault::NoMemory) => return Err(TraceFault::NoMemory),
        };
        let fields = fields_of(&self.net);
        match passed {
            Passed::Alone => self.tally.put_alone(text, fields, number, packet)?,
            Passed::Parted { copies, lost } => {
                self.tally.put_parted(text, fields, number, copies, lost)?
            }
        }
        Ok(())
    }

    // The packet passes through the network; where hops are told, the tally has the lines of the links that are crossed.
    #[inline(always)]
    fn pass(&mut self, port: u32, packet: &mut Packet) -> Result<Passed, InjectFault>
        requires packet { length packet.old ≡ comps self.old.net.tables }
        requires port { slice_index packet.old 0 ≡ port }
        requires room { self.old.net.injected < 2 ^ 63 }
        ensures passes { IfOk result (λ passed. Passes port packet.old self.old.net self.new.net (Traces self.old self.new (sent_in packet.new passed) (lost_in passed))) }
        ensures sent { IfOk result (λ passed. All (λ k. length k ≡ comps self.old.net.tables) (sent_in packet.new passed)) }
        ensures long { length packet.new ≡ length packet.old }
        ensures tables { self.new.net.tables ≡ self.old.net.tables }
        ensures hops { self.new.hops ≡ self.old.hops }
        ensures frames { self.new.frames ≡ self.old.frames }
        ensures injected { self.new.net.injected ≤ self.old.net.injected + 1 }
        ensures no_port { IfErr result (λ fault. fault ≢ InjectFault.NoMemory → port_at self.old.net.tables port ≡ None) }
        ensures has_port { IfOk result (λ _. IsSome (port_at self.old.net.tables port)) }
    {
        self.tally.begin(self.frames);
        if self.hops {
            self.net.pass(port, packet, &mut self.tally)
        } else {
            self.net.pass(port, packet, &mut Unwatched)
        }
    }
}

pub(crate) fn fields_of(net: &Net) -> &Fields
    ensures { result.now ≡ net.now.tables.fields }
{
    &net.tables().tables().fields
}

impl Machine for Tracer {
    ghost use Rattle.snap_runs.specs.Plain.{IsPlainReportBy};
    ghost use Rattle.snap_runs.specs.Reading.{has_port};
    ghost use Rattle.snap_runs.specs.Tracing.{Stands};

    ghost fields = { λ tracer. tracer.net.tables.fields };

    ghost count = { λ tracer. tracer.net.injected };

    ghost accepts = { λ tracer before packet. has_port tracer.net.tables packet };

    ghost is_ready = { λ tracer. Unit {0} };

    ghost stands = { Stands };

    ghost reports = { λ tracer packets text. IsPlainReportBy tracer.frames tracer.net.tables tracer.hops packets text };

    ghost refuses = { λ tracer packets packet fault. ⊥ };

    ghost is_partial = { ⊥ };

    fn fields(&self) -> &Fields {
        fields_of(&self.net)
    }

    fn take(
        &mut self,
        text: &mut Vec<u8>,
        port: u32,
        packet: &mut Packet,
        line: u64,
    ) -> Result<(), TraceFault> {
        self.take_packet(text, port, packet, line)
    }

    fn put_end<K: Sink>(&mut self, out: &mut Output, _: &mut K) -> Result<(), TraceFault> {
        self.put_places(&mut out.text)?;
        Ok(())
    }
}
