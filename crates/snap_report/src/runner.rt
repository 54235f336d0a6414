//! The run of a machine over a packets file: one big switch, or a network.

ghost use Rattle.std.specs.Prelude.{◌≡◌, ◌≤◌, ◌<◌, ◌+◌, ◌⊎◌, [], ℕ, List, Bool, length, slice_index, IfOk, IsErrOf, OnOk};
ghost use Rattle.snap_core.specs.Fields.{count as comps};
ghost use Rattle.snap_io.specs.Causes.{NoneFell, Rose};
ghost use Rattle.snap_io.specs.LineReaders.{AgreesWith, lines_given, lines_name};
ghost use Rattle.snap_report.specs.Reading.{FitsLine, GoesOn, HasLine, packet_in};
ghost use Rattle.snap_report.specs.Runner.{ClosesEach, ComesEach, EndsEach, FollowsEach, TakesEach, WritesEach, is_complete};

use crate::fault::TraceFault;
use crate::line::Line;
use crate::packets::PacketLines;
use snap_core::packet::Packet;
use snap_core::program::Fields;
use snap_io::{Output, Shelf, Sink};
use std::alloc::Global;

/// Takes the packets of a file, one after another, and reports them: one big switch, or a network.
pub trait Machine {
    ghost use Rattle.snap_core.specs.declared.program.Field.{Field};
    ghost use Rattle.snap_report.specs.declared.fault.TraceFault.{TraceFault};

    /// The fields of its packets.
    ghost fields: { Self → List Field };

    /// How many it has taken.
    ghost count: { Self → ℕ };

    /// In a run that began with this machine, a packet behind so many comes in at a port.
    ghost accepts: { Self → ℕ → List ℕ → Bool };

    /// It can go on.
    ghost is_ready: { Self → Type 0 };

    /// In a run that began with the first machine these packets were taken, of which these are the blocks; the last machine
    /// stands behind them.
    ghost stands: { Self → List (List ℕ) → List ℕ → Self → Type 0 };

    /// In such a run this is the whole report of these packets.
    ghost reports: { Self → List (List ℕ) → List ℕ → Type 0 };

    /// In such a run it refuses this packet behind these, with this fault.
    ghost refuses: { Self → List (List ℕ) → List ℕ → TraceFault → Type 0 };

    /// There are packets on which it is undefined.
    ghost is_partial: { Type 0 };

    /// The fields of its packets. Takes no memory.
    fn fields(&self) -> &Fields
        ensures { result.now ≡ fields self.now };

    /// Takes a packet of the line with this number, and puts its block behind the text. The packet's memory may be used for
    /// what it becomes.
    ///
    /// # Errors
    ///
    /// `Packets` where it isn't accepted, `Undefined` where it is refused, `NoMemory` for want of memory.
    fn take(
        &mut self,
        text: &mut Vec<u8>,
        port: u32,
        packet: &mut Packet,
        line: u64,
    ) -> Result<(), TraceFault>
        requires ready { is_ready self.old }
        requires room { count self.old < 1000000 }
        requires comps { length packet.old ≡ comps (fields self.old) }
        requires port { slice_index packet.old 0 ≡ port }
        ensures takes { TakesEach stands refuses accepts line packet.old self.old self.new text.old.items text.new.items result }
        ensures long { length packet.new ≡ length packet.old }
        ensures ready { OnOk result (is_ready self.new) }
        ensures fields { OnOk result (fields self.new ≡ fields self.old) }
        ensures count { count self.new ≤ count self.old + 1 }
        ensures defined { (k : ℕ) → IsErrOf result (TraceFault.Undefined k) → is_partial }
        ensures device { (IsErrOf result TraceFault.Read ⊎ IsErrOf result TraceFault.Write) → ⊥ };

    /// Puts the end of its report behind what waits, and may write pieces of both. It takes memory before it writes.
    ///
    /// # Errors
    ///
    /// `NoMemory` for want of memory; `Write` only where the sink's count of faults rose.
    fn put_end<K: Sink>(&mut self, out: &mut Output, sink: &mut K) -> Result<(), TraceFault>
        requires ready { is_ready self.old }
        ensures ends { EndsEach stands reports self.old (K.taken sink.old) (K.taken sink.new) out.old.text.items out.new.text.items result }
        ensures defined { (k : ℕ) → IsErrOf result (TraceFault.Undefined k) → ⊥ }
        ensures read { IsErrOf result TraceFault.Read → ⊥ }
        ensures write { IsErrOf result TraceFault.Write → Rose (K.faults sink.old) (K.faults sink.new) }
        ensures sink_later { K.faults sink.old ≤ K.faults sink.new };
}

/// Runs a machine over the packets file with this name, and writes its report as it comes: what waits is written before each
/// read.
///
/// # Errors
///
/// `Packets` at the first line that isn't in form or has more than `MOST_LINE` bytes; `Limit` where the file has more
/// than `MOST_LINES` lines or `MOST_BYTES` bytes; what the machine refuses: the blocks of the packets before have gone out.
/// `Read` only where the shelf's count of faults at the packets file rose, `Write` only where the sink's rose, `NoMemory`
/// for want of memory: some first bytes of the report have gone out.
pub fn run_over<M: Machine, S: Shelf, K: Sink>(
    alloc: Global,
    machine: &mut M,
    shelf: &mut S,
    packets: &[u8],
    sink: &mut K,
) -> Result<(), TraceFault>
    requires ready { M.is_ready machine.old }
    requires none { M.count machine.old ≡ 0 }
    ensures report { WritesEach M.stands M.reports M.refuses M.fields M.accepts (S.files shelf.old) packets.now machine.old result (K.taken sink.old) (K.taken sink.new) }
    ensures defined { (k : ℕ) → IsErrOf result (TraceFault.Undefined k) → M.is_partial }
    ensures read { IsErrOf result TraceFault.Read → Rose (S.faults shelf.old packets.now) (S.faults shelf.new packets.now) }
    ensures write { IsErrOf result TraceFault.Write → Rose (K.faults sink.old) (K.faults sink.new) }
    ensures files { S.files shelf.new ≡ S.files shelf.old }
    ensures later { NoneFell (S.faults shelf.old) (S.faults shelf.new) }
    ensures sink_later { K.faults sink.old ≤ K.faults sink.new }
{
    let mut reader = PacketLines::new(alloc, packets, machine.fields())?;
    let mut out = Output::new(alloc);
    let ended = run_lines(machine, &mut out, shelf, &mut reader, sink);
    if !is_complete(&ended) {
        return ended;
    }
    match out.flush(sink) {
        Ok(()) => ended,
        Err(_) => Err(TraceFault::Write),
    }
}

// Takes the lines one after another, and puts the end of the report where all were taken.
fn run_lines<M: Machine, S: Shelf, K: Sink>(
    machine: &mut M,
    out: &mut Output,
    shelf: &mut S,
    reader: &mut PacketLines,
    sink: &mut K,
) -> Result<(), TraceFault>
    requires ready { M.is_ready machine.old }
    requires none { M.count machine.old ≡ 0 }
    requires text { out.old.text.items ≡ [] }
    requires given { lines_given reader.old.lines ≡ 0 }
    requires read { reader.old.read ≡ 0 }
    requires agrees { AgreesWith (S.files shelf.old) reader.old.lines }
    requires long { length (packet_in reader.old) ≡ comps (M.fields machine.old) }
    ensures closes { ClosesEach M.stands M.reports M.refuses M.fields M.accepts (S.files shelf.old) reader.old machine.old result (K.taken sink.old) (K.taken sink.new) out.new }
    ensures defined { (k : ℕ) → IsErrOf result (TraceFault.Undefined k) → M.is_partial }
    ensures read { IsErrOf result TraceFault.Read → Rose (S.faults shelf.old (lines_name reader.old.lines)) (S.faults shelf.new (lines_name reader.old.lines)) }
    ensures write { IsErrOf result TraceFault.Write → Rose (K.faults sink.old) (K.faults sink.new) }
    ensures files { S.files shelf.new ≡ S.files shelf.old }
    ensures later { NoneFell (S.faults shelf.old) (S.faults shelf.new) }
    ensures sink_later { K.faults sink.old ≤ K.faults sink.new }
{
    while let Some(line) = next_line(machine, out, shelf, reader, sink)? {
        let number = reader.read();
        take_line(machine, out, line, &mut reader.draft.packet, number)?;
    }
    machine.put_end(out, sink)
}

// The next line. What waits is written first, where the line has to be read.
fn next_line<M: Machine, S: Shelf, K: Sink>(
    machine: &M,
    out: &mut Output,
    shelf: &mut S,
    reader: &mut PacketLines,
    sink: &mut K,
) -> Result<Option<Line>, TraceFault>
    requires agrees { AgreesWith (S.files shelf.old) reader.old.lines }
    requires long { length (packet_in reader.old) ≡ comps (M.fields machine.now) }
    ensures follows { FollowsEach M.stands M.reports M.refuses M.fields M.accepts (S.files shelf.old) reader.old reader.new machine.now (K.taken sink.old) (K.taken sink.new) out.old out.new result }
    ensures fits { IfOk result (HasLine (comps (M.fields machine.now)) (packet_in reader.new)) }
    ensures long { length (packet_in reader.new) ≡ comps (M.fields machine.now) }
    ensures goes_on { IfOk result (GoesOn reader.old.read reader.new.read) }
    ensures name { lines_name reader.new.lines ≡ lines_name reader.old.lines }
    ensures agrees { AgreesWith (S.files shelf.new) reader.new.lines }
    ensures read { IsErrOf result TraceFault.Read → Rose (S.faults shelf.old (lines_name reader.old.lines)) (S.faults shelf.new (lines_name reader.old.lines)) }
    ensures defined { (k : ℕ) → IsErrOf result (TraceFault.Undefined k) → ⊥ }
    ensures write { IsErrOf result TraceFault.Write → Rose (K.faults sink.old) (K.faults sink.new) }
    ensures files { S.files shelf.new ≡ S.files shelf.old }
    ensures later { NoneFell (S.faults shelf.old) (S.faults shelf.new) }
    ensures sink_later { K.faults sink.old ≤ K.faults sink.new }
{
    out.write_some(reader.holds_line(), sink)?;
    reader.next(shelf, machine.fields())
}

// Takes a line of this number, whose packet this is.
fn take_line<M: Machine>(
    machine: &mut M,
    out: &mut Output,
    line: Line,
    packet: &mut Packet,
    number: u64,
) -> Result<(), TraceFault>
    requires ready { M.is_ready machine.old }
    requires room { M.count machine.old < 1000000 }
    requires fits { FitsLine (comps (M.fields machine.old)) packet.old line }
    ensures comes { ComesEach M.stands M.reports M.refuses M.accepts number packet.old line machine.old machine.new out.old out.new result }
    ensures long { length packet.new ≡ length packet.old }
    ensures ready { OnOk result (M.is_ready machine.new) }
    ensures fields { OnOk result (M.fields machine.new ≡ M.fields machine.old) }
    ensures count { M.count machine.new ≤ M.count machine.old + 1 }
    ensures defined { (k : ℕ) → IsErrOf result (TraceFault.Undefined k) → M.is_partial }
    ensures device { (IsErrOf result TraceFault.Read ⊎ IsErrOf result TraceFault.Write) → ⊥ }
{
    match line {
        Line::Skip => Ok(()),
        Line::Inject { port } => machine.take(&mut out.text, port, packet, number),
    }
}

/// Whether the run has come to its end, with no device's failure and no want of memory.
pub fn is_complete(ended: &Result<(), TraceFault>) -> bool
    ensures { result ≡ is_complete ended.now }
{
    !matches!(
        ended,
        Err(TraceFault::Read | TraceFault::Write | TraceFault::NoMemory)
    )
}
