// A text that goes out in pieces.
ghost use Rattle.std.specs.Prelude.{◌≡◌, [], IfOk, OnOk};
ghost use Rattle.snap_io.specs.Causes.{HasCause};
ghost use Rattle.snap_io.specs.Outputs.{Puts};

use crate::device::PIECE;
use crate::{Sink, WriteFailed, write_whole};
use snap_core::NoMemory;
use std::alloc::Global;

/// A text whose first part went out, and whose rest waits. What is put behind it goes to `text`.
#[derive(Drop)]
pub struct Output {
    /// What waits.
    pub text: Vec<u8>,
}

impl Output {
    /// Nothing went out, and nothing waits. Takes no memory.
    pub fn new(alloc: Global) -> Output
        ensures { result.text.items ≡ [] }
    {
        Output {
            text: Vec::new(alloc),
        }
    }

    /// The same, with room for 64 KiB.
    ///
    /// # Errors
    ///
    /// `NoMemory`, for want of memory.
    pub fn with_room(alloc: Global) -> Result<Output, NoMemory>
        ensures { IfOk result (λ output. output.text.items ≡ []) }
    {
        Ok(Output {
            text: Vec::with_capacity(alloc, PIECE)?,
        })
    }

    /// Writes what waits. It takes no memory.
    ///
    /// # Errors
    ///
    /// `WriteFailed` where the sink failed; some first bytes went out then, and no others.
    #[inline(never)]
    pub fn flush<K: Sink>(&mut self, sink: &mut K) -> Result<(), WriteFailed>
        ensures puts { Puts (K.taken sink.old) (K.taken sink.new) self.old.text.items [] result self.new.text.items }
        ensures cause { HasCause (K.faults sink.old) (K.faults sink.new) result }
        ensures none { OnOk result (self.new.text.items ≡ []) }
    {
        write_whole(sink, &self.text)?;
        self.text.clear();
        Ok(())
    }

    /// Writes what waits, unless more is at hand and less than 64 KiB wait. It takes no memory.
    ///
    /// # Errors
    ///
    /// As `flush`.
    #[inline(always)]
    pub fn write_some<K: Sink>(&mut self, more: bool, sink: &mut K) -> Result<(), WriteFailed>
        ensures puts { Puts (K.taken sink.old) (K.taken sink.new) self.old.text.items [] result self.new.text.items }
        ensures cause { HasCause (K.faults sink.old) (K.faults sink.new) result }
    {
        if more && self.text.len() < PIECE {
            return Ok(());
        }
        self.flush(sink)
    }

    /// Puts bytes behind what waits. Where there is no memory for them, both are written.
    ///
    /// # Errors
    ///
    /// `WriteFailed` where the sink failed; some first bytes of both went out then, and no others.
    pub fn put<K: Sink>(&mut self, sink: &mut K, bytes: &[u8]) -> Result<(), WriteFailed>
        ensures puts { Puts (K.taken sink.old) (K.taken sink.new) self.old.text.items bytes.now result self.new.text.items }
        ensures cause { HasCause (K.faults sink.old) (K.faults sink.new) result }
    {
        if self.text.extend_from_slice(bytes).is_ok() {
            return Ok(());
        }
        self.flush(sink)?;
        write_whole(sink, bytes)
    }
}
