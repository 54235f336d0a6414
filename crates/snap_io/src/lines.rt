// The lines of a file, read in pieces, within limits.
ghost use Rattle.std.specs.Prelude.{◌≡◌, ◌≢◌, ◌↔◌, ℕ, ◌+◌, ◌-◌, ◌<◌, ◌≤◌, List, Ok, Err, true, false, nat_lt, length, IsTrue, IfOk, OnOk, IfSome, IsErrOf};
ghost use Rattle.std.specs.declared.option.Option.{Option};
ghost use Rattle.snap_io.specs.declared.lines.LinesFault.TheVariants as fault;
ghost use Rattle.snap_io.specs.Causes.{HasCause, NoneFell, Rose};
ghost use Rattle.snap_io.specs.Files.{Files, file_of};
ghost use Rattle.snap_io.specs.Lines.{many_bytes, next_in};

use crate::device::PIECE;
use crate::held::Held;
use crate::{Failed, Shelf};
use snap_core::NoMemory;
use std::alloc::Global;
use thiserror::Error;

/// Why a file's next line was not given.
#[derive(Clone, Copy, Debug, PartialEq, Eq, Error)]
pub enum LinesFault {
    /// The shelf failed.
    #[error("the shelf failed")]
    Failed,

    /// The line has more bytes than a line may have, and its first ones, one more than that, lie within the limit
    /// on the file's bytes.
    #[error("the line is too long")]
    LongLine,

    /// The line doesn't end within the limit on the file's bytes, and the file is longer than that.
    #[error("the file has too many bytes")]
    ManyBytes,
}

impl From<Failed> for LinesFault {
    ghost from_gives = { λ _ e. e ≡ fault.Failed };

    fn from(_: Failed) -> Self {
        LinesFault::Failed
    }
}

/// A reader of a file's lines, one after another. A line ends with an LF, which is no part of it; a CR is. The last
/// line may lack its LF.
///
/// The lines depend on the file's bytes alone, however the shelf cuts its reads. A refusal gives nothing: the next
/// call begins where the refused one did.
#[derive(Drop)]
pub struct Lines {
    name: Vec<u8>,
    limit: u64,
    held: Held,
    given: u64,
    ended: bool,
    ghost within: { given + (held.end - held.start) ≤ limit },
}

impl Lines {
    ghost use Rattle.snap_io.specs.LineReaders.{is_open, left_to_read, OnlyReads, Agrees, lines_name, lines_limit, lines_most, lines_given, lines_line, HoldsLine, AgreesWith, AnswersNext, next_of};

    /// A reader of the file with this name. The file may have `limit` bytes, and a line `most`.
    ///
    /// It takes all memory that the reader ever needs, and reads nothing.
    ///
    /// # Errors
    ///
    /// `NoMemory` for want of memory.
    pub fn new(alloc: Global, name: &[u8], limit: u64, most: usize) -> Result<Lines, NoMemory>
        ensures name { IfOk result (λ lines. lines_name lines ≡ name.now) }
        ensures limit { IfOk result (λ lines. lines_limit lines ≡ limit) }
        ensures most { IfOk result (λ lines. lines_most lines ≡ most) }
        ensures given { IfOk result (λ lines. lines_given lines ≡ 0) }
        ensures agrees { IfOk result (λ lines. (told : Option Files) → AgreesWith told lines) }
    {
        Ok(Lines {
            name: name.to_vec(alloc)?,
            limit,
            held: Held::new(alloc, most)?,
            given: 0,
            ended: false,
        })
    }

    /// The line of the last call of `next` that answered true, without its LF. It takes no memory.
    pub fn line(&self) -> &[u8]
        ensures line { result.now ≡ lines_line self.now }
        ensures bound { length result.now ≤ lines_most self.now }
    {
        self.held.line()
    }

    /// Whether the bytes read and not yet given hold an LF. Where they do, `next` makes no read.
    pub fn holds_line(&self) -> bool
        ensures { IsTrue result ↔ HoldsLine self.now }
    {
        self.held.before() < self.held.len()
    }

    /// Reads on to the end of the next line. True: the line stands, as `line` tells. False: the file's end was
    /// reached. It takes no memory.
    ///
    /// # Errors
    ///
    /// `Failed` where the shelf failed at this file, `LongLine` and `ManyBytes` exactly where the line breaks these limits.
    pub fn next<S: Shelf>(&mut self, shelf: &mut S) -> Result<bool, LinesFault>
        requires { AgreesWith (S.files shelf.old) self.old }
        ensures next { IfSome (S.files shelf.old) (λ files.
            AnswersNext (next_of self.old files) self.new result) }
        ensures agrees { AgreesWith (S.files shelf.new) self.new }
        ensures given { result ≢ Ok true → lines_given self.new ≡ lines_given self.old }
        ensures line { result ≢ Ok true → lines_line self.new ≡ lines_line self.old }
        ensures name { lines_name self.new ≡ lines_name self.old }
        ensures limit { lines_limit self.new ≡ lines_limit self.old }
        ensures most { lines_most self.new ≡ lines_most self.old }

        ensures failed { IsErrOf result LinesFault.Failed → Rose (S.faults shelf.old (lines_name self.old)) (S.faults shelf.new (lines_name self.old)) }
        ensures files { S.files shelf.new ≡ S.files shelf.old }
        ensures later { NoneFell (S.faults shelf.old) (S.faults shelf.new) }

        // where an LF is held, the call makes no read
        ensures no_read { HoldsLine self.old → shelf.new ≡ shelf.old }
        ensures not_failed { HoldsLine self.old → result ≢ Err LinesFault.Failed }
        ensures not_many { HoldsLine self.old → result ≢ Err LinesFault.ManyBytes }
    {
        if !self.holds_line() {
            self.read_line(shelf)?;
        }
        self.give()
    }

    // Reads on until what is held tells the next line.
    fn read_line<S: Shelf>(&mut self, shelf: &mut S) -> Result<(), LinesFault>
        requires { AgreesWith (S.files shelf.old) self.old }
        ensures settled { OnOk result (is_open self.new ≡ false) }
        ensures agrees { AgreesWith (S.files shelf.new) self.new }
        ensures many { IfSome (S.files shelf.old) (λ files.
            IsErrOf result LinesFault.ManyBytes → next_of self.old files ≡ many_bytes) }
        ensures not_long { result ≢ Err LinesFault.LongLine }
        ensures reads { OnlyReads self.old self.new }
        ensures failed { IsErrOf result LinesFault.Failed → Rose (S.faults shelf.old (lines_name self.old)) (S.faults shelf.new (lines_name self.old)) }
        ensures files { S.files shelf.new ≡ S.files shelf.old }
        ensures later { NoneFell (S.faults shelf.old) (S.faults shelf.new) }
    {
        while self.is_open() {
            self.read_more(shelf)?;
        }
        Ok(())
    }

    // Whether more of the file has to be read before the next line is known.
    fn is_open(&self) -> bool
        ensures { result ≡ is_open self.now }
    {
        let len = self.held.len();
        !self.ended && self.held.before() == len && len <= self.held.most()
    }

    // Reads a piece of the file, or finds its end.
    fn read_more<S: Shelf>(&mut self, shelf: &mut S) -> Result<(), LinesFault>
        requires open { is_open self.old ≡ true }
        requires agrees { AgreesWith (S.files shelf.old) self.old }
        ensures progress { OnOk result (left_to_read self.new < left_to_read self.old) }
        ensures agrees { AgreesWith (S.files shelf.new) self.new }
        ensures many { IfSome (S.files shelf.old) (λ files.
            IsErrOf result LinesFault.ManyBytes → next_of self.old files ≡ many_bytes) }
        ensures not_long { result ≢ Err LinesFault.LongLine }
        ensures reads { OnlyReads self.old self.new }
        ensures failed { IsErrOf result LinesFault.Failed → Rose (S.faults shelf.old (lines_name self.old)) (S.faults shelf.new (lines_name self.old)) }
        ensures files { S.files shelf.new ≡ S.files shelf.old }
        ensures later { NoneFell (S.faults shelf.old) (S.faults shelf.new) }
    {
        let place = self.given + self.held.len() as u64;
        let left = self.limit - place;
        if left == 0 {
            if goes_on(shelf, &self.name, place)? {
                return Err(LinesFault::ManyBytes);
            }
            self.ended = true;
            return Ok(());
        }
        let want = left.min(PIECE as u64) as usize;
        let count = self.held.read(shelf, &self.name, place, want)?;
        self.ended = count == 0;
        Ok(())
    }

    // Gives what is held of the next line, which ends there or is too long.
    fn give(&mut self) -> Result<bool, LinesFault>
        requires { is_open self.old ≡ false }
        ensures next { (file : List ℕ) → Agrees self.old file →
            AnswersNext (next_in (lines_limit self.old) (lines_most self.old) file (lines_given self.old)) self.new result }
        ensures agrees { (file : List ℕ) → Agrees self.old file → Agrees self.new file }
        ensures given { result ≢ Ok true → lines_given self.new ≡ lines_given self.old }
        ensures line { result ≢ Ok true → lines_line self.new ≡ lines_line self.old }
        ensures name { lines_name self.new ≡ lines_name self.old }
        ensures limit { lines_limit self.new ≡ lines_limit self.old }
        ensures most { lines_most self.new ≡ lines_most self.old }
        ensures not_failed { result ≢ Err LinesFault.Failed }
        ensures not_many { result ≢ Err LinesFault.ManyBytes }
    {
        let before = self.held.before();
        if self.held.most() < before {
            return Err(LinesFault::LongLine);
        }
        let len = self.held.len();
        if len == 0 {
            return Ok(false);
        }
        self.given += len.min(before + 1) as u64;
        self.held.give();
        Ok(true)
    }
}

// Whether the file has a byte at this place.
fn goes_on<S: Shelf>(shelf: &mut S, name: &[u8], from: u64) -> Result<bool, Failed>
    ensures more { IfSome (S.files shelf.old) (λ files.
        IfOk result (λ more. more ≡ nat_lt from (length (file_of files name.now)))) }
    ensures files { S.files shelf.new ≡ S.files shelf.old }
    ensures cause { HasCause (S.faults shelf.old name.now) (S.faults shelf.new name.now) result }
    ensures later { NoneFell (S.faults shelf.old) (S.faults shelf.new) }
{
    let mut byte = [0u8; 1];
    let count = shelf.read_at(name, from, &mut byte)?;
    Ok(0 < count)
}
