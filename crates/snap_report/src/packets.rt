//! A reader of a packets file, line by line.

ghost use Rattle.std.specs.Prelude.{◌≡◌, ◌↔◌, ◌≤◌, ◌+◌, ℕ, List, Bool, length, IfOk, IfSome, IsErrOf, IsTrue};
ghost use Rattle.std.specs.declared.option.Option.{Option as Maybe};
ghost use Rattle.snap_io.specs.LineReaders.{lines_limit, lines_most};
ghost use Rattle.snap_report.specs.Refusals.{refusal_of, refusal_past_last};

use crate::draft::PacketDraft;
use crate::fault::TraceFault;
use crate::line::{Line, read_line};
use snap_core::NoMemory;
use snap_core::packet::Packet;
use snap_core::program::{Fields, Which};
use snap_io::{Lines, LinesFault, Shelf};
use std::alloc::Global;

/// The most bytes of a packets file.
pub const MOST_BYTES: u64 = 67_108_864;

/// The most bytes of a line of a packets file, without its LF.
pub const MOST_LINE: usize = 65_536;

/// The most lines of a packets file.
pub const MOST_LINES: u64 = 1_000_000;

/// A reader of a packets file, how many lines it has given, and room for the packet of a line.
#[derive(Drop)]
pub struct PacketLines {
    lines: Lines,
    read: u64,
    pub(crate) draft: PacketDraft,
    ghost limit: { lines_limit lines ≡ 67108864 },
    ghost most: { lines_most lines ≡ 65536 },
    ghost few: { read ≤ 1000000 },
}

impl PacketLines {
    ghost use Rattle.snap_core.specs.Fields.{count};
    ghost use Rattle.snap_io.specs.Causes.{NoneFell, Rose};
    ghost use Rattle.snap_io.specs.Files.{Files};
    ghost use Rattle.snap_io.specs.LineReaders.{AgreesWith, HoldsLine, lines_given, lines_name};
    ghost use Rattle.snap_report.specs.Reading.{GivesNext, GoesOn, HasLine, LeavesLine, ReadsNext, file_in, next_for, packet_in, refused_behind};

    /// A reader of the file with this name, of packets with these fields, before its first line. Refuses for memory alone.
    pub fn new(alloc: Global, name: &[u8], fields: &Fields) -> Result<PacketLines, NoMemory>
        ensures name { IfOk result (λ reader. lines_name reader.lines ≡ name.now) }
        ensures given { IfOk result (λ reader. lines_given reader.lines ≡ 0) }
        ensures read { IfOk result (λ reader. reader.read ≡ 0) }
        ensures agrees { IfOk result (λ reader. (told : Maybe Files) → AgreesWith told reader.lines) }
        ensures long { IfOk result (λ reader. length (packet_in reader) ≡ count fields.now) }
    {
        let draft = PacketDraft::new(alloc, fields)?;
        let lines = Lines::new(alloc, name, MOST_BYTES, MOST_LINE)?;
        Ok(PacketLines {
            lines,
            read: 0,
            draft,
        })
    }

    /// The packet of the line that `next` gave last, if that was one. Takes no memory.
    pub fn packet(&self) -> &Packet
        ensures { result.now ≡ packet_in self.now }
    {
        self.draft.packet()
    }

    /// How many lines were given. Takes no memory.
    pub fn read(&self) -> u64
        ensures read { result ≡ self.now.read }
        ensures few { result ≤ 1000000 }
    {
        self.read
    }

    /// Whether the bytes read and not yet given hold an LF. Where they do, `next` makes no read.
    pub fn holds_line(&self) -> bool
        ensures { IsTrue result ↔ HoldsLine self.now.lines }
    {
        self.lines.holds_line()
    }

    /// The next line, of packets with these fields, or nothing at the file's end. The reader's packet becomes that of the
    /// line. Takes no memory for it.
    ///
    /// # Errors
    ///
    /// As those of `trace`: `Read`, `Packets` and `Limit`.
    pub fn next<S: Shelf>(
        &mut self,
        shelf: &mut S,
        fields: &Fields,
    ) -> Result<Option<Line>, TraceFault>
        requires agrees { AgreesWith (S.files shelf.old) self.old.lines }
        requires long { length (packet_in self.old) ≡ count fields.now }
        ensures leaves { IfSome (S.files shelf.old) (λ files. (accepts : ℕ → List ℕ → Bool) (before : ℕ) →
            LeavesLine fields.now accepts before (file_in files self.old) self.old self.new result) }
        ensures comps { IfOk result (HasLine (count fields.now) (packet_in self.new)) }
        ensures long { length (packet_in self.new) ≡ count fields.now }
        ensures goes_on { IfOk result (GoesOn self.old.read self.new.read) }
        ensures name { lines_name self.new.lines ≡ lines_name self.old.lines }
        ensures agrees { AgreesWith (S.files shelf.new) self.new.lines }
        ensures read { IsErrOf result TraceFault.Read → Rose (S.faults shelf.old (lines_name self.old.lines)) (S.faults shelf.new (lines_name self.old.lines)) }
        ensures defined { (packet : ℕ) → IsErrOf result (TraceFault.Undefined packet) → ⊥ }
        ensures not_write { IsErrOf result TraceFault.Write → ⊥ }
        ensures files { S.files shelf.new ≡ S.files shelf.old }
        ensures later { NoneFell (S.faults shelf.old) (S.faults shelf.new) }
    {
        self.give(shelf, fields)
    }

    // Reads the next line, and says what it says.
    fn give<S: Shelf>(&mut self, shelf: &mut S, fields: &Fields) -> Result<Option<Line>, TraceFault>
        requires agrees { AgreesWith (S.files shelf.old) self.old.lines }
        requires long { length (packet_in self.old) ≡ count fields.now }
        ensures next { IfSome (S.files shelf.old) (λ files.
            GivesNext fields.now self.old.read (next_for (file_in files self.old) self.old) self.new result) }
        ensures few { self.old.read ≤ 1000000 }
        ensures comps { IfOk result (HasLine (count fields.now) (packet_in self.new)) }
        ensures long { length (packet_in self.new) ≡ count fields.now }
        ensures goes_on { IfOk result (GoesOn self.old.read self.new.read) }
        ensures name { lines_name self.new.lines ≡ lines_name self.old.lines }
        ensures agrees { AgreesWith (S.files shelf.new) self.new.lines }
        ensures read { IsErrOf result TraceFault.Read → Rose (S.faults shelf.old (lines_name self.old.lines)) (S.faults shelf.new (lines_name self.old.lines)) }
        ensures defined { (packet : ℕ) → IsErrOf result (TraceFault.Undefined packet) → ⊥ }
        ensures not_write { IsErrOf result TraceFault.Write → ⊥ }
        ensures files { S.files shelf.new ≡ S.files shelf.old }
        ensures later { NoneFell (S.faults shelf.old) (S.faults shelf.new) }
    {
        if !self.next_text(shelf)? {
            return Ok(None);
        }
        match read_line(&mut self.draft, fields, self.lines.line()) {
            Some(line) => Ok(Some(line)),
            None => Err(TraceFault::Packets { line: self.read }),
        }
    }

    // Reads the next line's text. False: there is none.
    fn next_text<S: Shelf>(&mut self, shelf: &mut S) -> Result<bool, TraceFault>
        requires agrees { AgreesWith (S.files shelf.old) self.old.lines }
        ensures reads { IfSome (S.files shelf.old) (λ files.
            ReadsNext self.old.read (next_for (file_in files self.old) self.old) self.new result) }
        ensures more { IfOk result (λ more. IsTrue more → self.new.read ≡ self.old.read + 1) }
        ensures packet { packet_in self.new ≡ packet_in self.old }
        ensures name { lines_name self.new.lines ≡ lines_name self.old.lines }
        ensures agrees { AgreesWith (S.files shelf.new) self.new.lines }
        ensures read { IsErrOf result TraceFault.Read → Rose (S.faults shelf.old (lines_name self.old.lines)) (S.faults shelf.new (lines_name self.old.lines)) }
        ensures defined { (packet : ℕ) → IsErrOf result (TraceFault.Undefined packet) → ⊥ }
        ensures not_write { IsErrOf result TraceFault.Write → ⊥ }
        ensures files { S.files shelf.new ≡ S.files shelf.old }
        ensures later { NoneFell (S.faults shelf.old) (S.faults shelf.new) }
    {
        match self.lines.next(shelf) {
            Ok(true) => {
                if self.read == MOST_LINES {
                    return Err(many_lines());
                }
                self.read += 1;
                Ok(true)
            }
            Ok(false) => Ok(false),
            Err(fault) => Err(self.refused(fault)),
        }
    }

    // Why the next line isn't given.
    fn refused(&self, fault: LinesFault) -> TraceFault
        ensures { result ≡ refused_behind self.now.read fault }
    {
        if self.read == MOST_LINES {
            refusal_past_last(fault)
        } else {
            refusal(fault, self.read + 1)
        }
    }
}

// The refusal of a line behind the last that may come.
pub(crate) fn many_lines() -> TraceFault
    ensures { result ≡ TraceFault.Limit Which.Lines 1000001 }
{
    TraceFault::Limit {
        which: Which::Lines,
        count: MOST_LINES + 1,
    }
}

// Why no line is given behind the last that may come.
pub(crate) fn refusal_past_last(fault: LinesFault) -> TraceFault
    ensures { result ≡ refusal_past_last fault }
{
    match fault {
        LinesFault::Failed => TraceFault::Read,
        LinesFault::LongLine => many_lines(),
        LinesFault::ManyBytes => many_lines(),
    }
}

// Why the line of this number isn't given.
pub(crate) fn refusal(fault: LinesFault, line: u64) -> TraceFault
    ensures { result ≡ refusal_of fault line }
{
    match fault {
        LinesFault::Failed => TraceFault::Read,
        LinesFault::LongLine => TraceFault::Packets { line },
        LinesFault::ManyBytes => TraceFault::Limit {
            which: Which::Bytes,
            count: MOST_BYTES + 1,
        },
    }
}
