// The bytes of a file that were read and not yet given, in a buffer of a fixed size.
ghost use Rattle.std.specs.Prelude.{◌≡◌, ◌+◌, ◌*◌, ◌<◌, ◌≤◌, [], ◌++◌, length, take, drop, slice_range, vec_len, IfOk, IfSome, OnErr};
ghost use Rattle.snap_io.specs.declared.device.TheConstants.{PIECE};
ghost use Rattle.snap_io.specs.Causes.{HasCause, NoneFell};
ghost use Rattle.snap_io.specs.Files.{file_of, ReadsPart};
ghost use Rattle.snap_io.specs.Lines.{before_lf};

use crate::device::PIECE;
use crate::{Failed, Shelf};
use memchr::memchr;
use snap_core::NoMemory;
use std::alloc::Global;

/// Bytes read and not yet given, and before them in the buffer the line that was given last.
///
/// There is room for two lines and a piece. What is kept moves to the buffer's front only where no room for a piece
/// is left behind it; a line was given since the last move then, so that no byte moves more than twice.
#[derive(Drop)]
pub(crate) struct Held {
    buffer: Vec<u8>,
    most: usize,
    line_start: usize,
    line_end: usize,
    start: usize,
    end: usize,
    before: usize,
    ghost room: { vec_len buffer ≡ 2 * most + PIECE + 1 },
    ghost line_ordered: { line_start ≤ line_end },
    ghost line_fits: { line_end ≤ line_start + most },
    ghost line_before: { line_end ≤ start },
    ghost line_near: { start ≤ line_end + 1 },
    ghost ordered: { start ≤ end },
    ghost within: { end ≤ vec_len buffer },
    ghost scanned: { before ≡ before_lf (slice_range buffer.items start end) },
}

impl Held {
    ghost use Rattle.snap_io.specs.Lines.{first_line};
    ghost use Rattle.snap_io.specs.Held.{held_bytes, held_line, held_most, GrowsBy};

    /// Takes the memory for lines of at most `most` bytes.
    pub(crate) fn new(alloc: Global, most: usize) -> Result<Held, NoMemory>
        ensures bytes { IfOk result (λ held. held_bytes held ≡ []) }
        ensures line { IfOk result (λ held. held_line held ≡ []) }
        ensures most { IfOk result (λ held. held_most held ≡ most) }
    {
        let size = most
            .checked_mul(2)
            .and_then(|lines| lines.checked_add(PIECE + 1))
            .ok_or(NoMemory)?;
        Ok(Held {
            buffer: vec![in alloc; 0u8; size]?,
            most,
            line_start: 0,
            line_end: 0,
            start: 0,
            end: 0,
            before: 0,
        })
    }

    /// How many bytes a line may have.
    pub(crate) fn most(&self) -> usize
        ensures { result ≡ held_most self.now }
    {
        self.most
    }

    /// How many bytes are held.
    pub(crate) fn len(&self) -> usize
        ensures { result ≡ length (held_bytes self.now) }
    {
        self.end - self.start
    }

    /// How many bytes are held before their first LF, or in all where they hold none.
    pub(crate) fn before(&self) -> usize
        ensures { result ≡ before_lf (held_bytes self.now) }
    {
        self.before
    }

    /// The line given last.
    pub(crate) fn line(&self) -> &[u8]
        ensures line { result.now ≡ held_line self.now }
        ensures bound { length result.now ≤ held_most self.now }
    {
        &self.buffer[self.line_start..self.line_end]
    }

    /// Gives the bytes before the first LF as the line, and lets them and the LF go.
    pub(crate) fn give(&mut self)
        requires { before_lf (held_bytes self.old) ≤ held_most self.old }
        ensures line { held_line self.new ≡ first_line (held_bytes self.old) }
        ensures bytes { held_bytes self.new ≡ drop (before_lf (held_bytes self.old) + 1) (held_bytes self.old) }
        ensures most { held_most self.new ≡ held_most self.old }
    {
        self.line_start = self.start;
        self.line_end = self.start + self.before;
        self.start = self.end.min(self.line_end + 1);
        let rest = &self.buffer[self.start..self.end];
        self.before = memchr(b'\n', rest).unwrap_or(rest.len());
    }

    /// Reads up to `want` bytes more of the file, and says how many came. At 0 the file ends there.
    pub(crate) fn read<S: Shelf>(
        &mut self,
        shelf: &mut S,
        name: &[u8],
        from: u64,
        want: usize,
    ) -> Result<usize, Failed>
        requires few { length (held_bytes self.old) ≤ held_most self.old }
        requires no_line { before_lf (held_bytes self.old) ≡ length (held_bytes self.old) }
        requires some { 0 < want }
        requires piece { want ≤ PIECE }
        ensures more { IfOk result (λ count. count ≤ want) }
        ensures len { IfOk result (λ count. length (held_bytes self.new) ≡ length (held_bytes self.old) + count) }
        ensures bytes { IfSome (S.files shelf.old) (λ files.
            IfOk result (λ count. GrowsBy (file_of files name.now) from count (held_bytes self.old) (held_bytes self.new))) }
        ensures line { held_line self.new ≡ held_line self.old }
        ensures most { held_most self.new ≡ held_most self.old }
        ensures err { OnErr result (held_bytes self.new ≡ held_bytes self.old) }
        ensures files { S.files shelf.new ≡ S.files shelf.old }
        ensures cause { HasCause (S.faults shelf.old name.now) (S.faults shelf.new name.now) result }
        ensures later { NoneFell (S.faults shelf.old) (S.faults shelf.new) }
    {
        self.make_room();
        let count = self.fill(shelf, name, from, want)?;
        self.hold(count);
        Ok(count)
    }

    // Reads up to `want` bytes of the file to the place behind those held, and holds none of them yet.
    fn fill<S: Shelf>(
        &mut self,
        shelf: &mut S,
        name: &[u8],
        from: u64,
        want: usize,
    ) -> Result<usize, Failed>
        requires some { 0 < want }
        requires room { self.old.end + want ≤ vec_len self.old.buffer }
        ensures bound { IfOk result (λ count. count ≤ want) }
        ensures part { IfSome (S.files shelf.old) (λ files.
            IfOk result (λ count. ReadsPart (file_of files name.now) from count (drop self.new.end self.new.buffer.items))) }
        ensures end { self.new.end ≡ self.old.end }
        ensures room { vec_len self.new.buffer ≡ vec_len self.old.buffer }
        ensures bytes { held_bytes self.new ≡ held_bytes self.old }
        ensures line { held_line self.new ≡ held_line self.old }
        ensures most { held_most self.new ≡ held_most self.old }
        ensures files { S.files shelf.new ≡ S.files shelf.old }
        ensures cause { HasCause (S.faults shelf.old name.now) (S.faults shelf.new name.now) result }
        ensures later { NoneFell (S.faults shelf.old) (S.faults shelf.new) }
    {
        read_behind(shelf, name, from, &mut self.buffer, self.end, want)
    }

    // Holds so many more bytes, which stand behind those held.
    fn hold(&mut self, count: usize)
        requires room { self.old.end + count ≤ vec_len self.old.buffer }
        requires no_line { before_lf (held_bytes self.old) ≡ length (held_bytes self.old) }
        ensures bytes { held_bytes self.new ≡ held_bytes self.old ++ take count (drop self.old.end self.old.buffer.items) }
        ensures line { held_line self.new ≡ held_line self.old }
        ensures most { held_most self.new ≡ held_most self.old }
    {
        let more = &self.buffer[self.end..self.end + count];
        self.before += memchr(b'\n', more).unwrap_or(more.len());
        self.end += count;
    }

    // Leaves room for a piece behind the bytes held.
    fn make_room(&mut self)
        requires few { length (held_bytes self.old) ≤ held_most self.old }
        ensures room { self.new.end + PIECE ≤ vec_len self.new.buffer }
        ensures bytes { held_bytes self.new ≡ held_bytes self.old }
        ensures line { held_line self.new ≡ held_line self.old }
        ensures most { held_most self.new ≡ held_most self.old }
    {
        if self.buffer.len() - self.end < PIECE {
            let shift = self.line_start;
            self.buffer.copy_within(shift..self.end, 0);
            self.line_start = 0;
            self.line_end -= shift;
            self.start -= shift;
            self.end -= shift;
        }
    }
}

// Reads up to `want` bytes of a file to the place behind a buffer's first `end` bytes.
fn read_behind<S: Shelf>(
    shelf: &mut S,
    name: &[u8],
    from: u64,
    buffer: &mut [u8],
    end: usize,
    want: usize,
) -> Result<usize, Failed>
    requires some { 0 < want }
    requires room { end + want ≤ length buffer.old }
    ensures bound { IfOk result (λ count. count ≤ want) }
    ensures front { take end buffer.new ≡ take end buffer.old }
    ensures bytes { IfSome (S.files shelf.old) (λ files.
        IfOk result (λ count. ReadsPart (file_of files name.now) from count (drop end buffer.new))) }
    ensures files { S.files shelf.new ≡ S.files shelf.old }
    ensures cause { HasCause (S.faults shelf.old name.now) (S.faults shelf.new name.now) result }
    ensures later { NoneFell (S.faults shelf.old) (S.faults shelf.new) }
{
    shelf.read_at(name, from, &mut buffer[end..end + want])
}
