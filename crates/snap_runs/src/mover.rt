//! A network that takes packets one after another, and whose tables change between packets.

ghost use Rattle.std.specs.Prelude.{◌≡◌, ◌++◌, ◌∷◌, [], IfOk, MatchOption, OnOk};
ghost use Rattle.snap_core.specs.Arrays.{zero_arrays};
ghost use Rattle.snap_rows.specs.Network.{start};
ghost use Rattle.snap_net.specs.Shown.{Represents};
ghost use Rattle.snap_runs.specs.Moving.{HasSettled, IsNotDue, IsSettled, Keeps, left_in};

use crate::frames::Frames;
use crate::later::Later;
use crate::tracer::Tracer;
use snap_core::NoMemory;
use snap_core::packet::Packet;
use snap_core::program::Fields;
use snap_io::{Output, Sink};
use snap_report::TraceFault;
use snap_report::runner::Machine;
use snap_rows::valid::Valid;
use std::alloc::Global;

/// A network between two packets, and the changes of its tables that are still to come, the next one last.
#[derive(Drop)]
pub(crate) struct Mover {
    alloc: Global,
    tracer: Tracer,
    later: Vec<Later>,
}

impl Mover {
    /// Before the first packet.
    pub(crate) fn new(
        alloc: Global,
        first: Valid,
        mut later: Vec<Later>,
        hops: bool,
    ) -> Result<Mover, NoMemory>
        ensures later { IfOk result (λ mover. left_in mover ≡ later.items) }
        ensures tables { IfOk result (λ mover. mover.tracer.net.tables ≡ first) }
        ensures hops { IfOk result (λ mover. mover.tracer.hops ≡ hops) }
        ensures frames { IfOk result (λ mover. mover.tracer.frames ≡ Frames.Plain) }
        ensures injected { IfOk result (λ mover. mover.tracer.net.injected ≡ 0) }
        ensures start { IfOk result (λ mover. Represents mover.tracer.net (start first zero_arrays)) }
    {
        let tracer = Tracer::new(alloc, first, hops, Frames::Plain)?;
        later.reverse();
        Ok(Mover {
            alloc,
            tracer,
            later,
        })
    }

    /// Makes the change that is due, if one is. Refuses for memory alone.
    pub(crate) fn make_due(&mut self) -> Result<(), NoMemory>
        requires { Keeps self.old }
        ensures stands { OnOk result (HasSettled self.old self.new) }
        ensures settled { OnOk result (IsSettled self.new) }
        ensures keeps { OnOk result (Keeps self.new) }
        ensures injected { self.new.tracer.net.injected ≡ self.old.tracer.net.injected }
        ensures fields { OnOk result (self.new.tracer.net.tables.fields ≡ self.old.tracer.net.tables.fields) }
        ensures hops { self.new.tracer.hops ≡ self.old.tracer.hops }
        ensures frames { self.new.tracer.frames ≡ self.old.tracer.frames }
    {
        match next_due(&mut self.later, self.tracer.taken()) {
            Some(next) => self.tracer.change(next.tables),
            None => Ok(()),
        }
    }
}

impl Machine for Mover {
    ghost use Rattle.snap_runs.specs.Reading.{has_port};
    ghost use Rattle.snap_runs.specs.Changing.{IsChangedReport, in_force};
    ghost use Rattle.snap_runs.specs.Moving.{StandsBehind};

    ghost fields = { λ mover. mover.tracer.net.tables.fields };

    ghost count = { λ mover. mover.tracer.net.injected };

    ghost accepts = { λ mover before packet. has_port (in_force mover.tracer.net.tables (left_in mover) before) packet };

    ghost is_ready = { λ mover. Keeps mover × IsSettled mover };

    ghost stands = { StandsBehind };

    ghost reports = { λ mover packets text. IsChangedReport mover.tracer.net.tables (left_in mover) mover.tracer.hops packets text };

    ghost refuses = { λ mover packets packet fault. ⊥ };

    ghost is_partial = { ⊥ };

    fn fields(&self) -> &Fields {
        self.tracer.fields()
    }

    // The change that is due behind the packet is made too.
    fn take(
        &mut self,
        text: &mut Vec<u8>,
        port: u32,
        packet: &mut Packet,
        line: u64,
    ) -> Result<(), TraceFault> {
        self.tracer.take_packet(text, port, packet, line)?;
        self.make_due()?;
        Ok(())
    }

    fn put_end<K: Sink>(&mut self, out: &mut Output, _: &mut K) -> Result<(), TraceFault> {
        self.tracer.put_places(&mut out.text)?;
        Ok(())
    }
}

// Takes out the next change, where it comes behind so many packets. The next one stands last.
fn next_due(later: &mut Vec<Later>, taken: u64) -> Option<Later>
    ensures { MatchOption result
        ((later.new.items ≡ later.old.items) × IsNotDue later.old.items taken)
        (λ next. (later.old.items ≡ later.new.items ++ next ∷ []) × (next.after ≡ taken)) }
{
    match later.last() {
        Some(next) if next.after == taken => later.pop(),
        _ => None,
    }
}
