//! The end of a report, which goes out in pieces.
//!
//! Want of memory may end a run only before the first byte of the end goes out. So nothing here needs memory: where
//! the text that waits can't grow, it is written.

ghost use Rattle.std.specs.Prelude.{◌++◌, decimal, map};
ghost use Rattle.std.specs.List.{flat_map};
ghost use Rattle.snap_core.specs.Listing.{entry_of};
ghost use Rattle.snap_io.specs.Causes.{HasCause};
ghost use Rattle.snap_io.specs.Outputs.{Puts};
ghost use Rattle.snap_report.specs.Reports.{end_text, index_text, listed_line};

use crate::report::{name_at, put_place_before};
use itoa::Buffer;
use snap_core::lists::Names;
use snap_core::place::Listed;
use snap_io::{Output, Sink, WriteFailed};

// Puts a mark and a number in digits.
fn put_number<K: Sink>(
    out: &mut Output,
    sink: &mut K,
    mark: &[u8],
    number: u64,
) -> Result<(), WriteFailed>
    ensures puts { Puts (K.taken sink.old) (K.taken sink.new) out.old.text.items (mark.now ++ decimal number) result out.new.text.items }
    ensures cause { HasCause (K.faults sink.old) (K.faults sink.new) result }
{
    let mut digits = Buffer::new();
    out.put(sink, mark)?;
    out.put(sink, digits.format(number).as_bytes())
}

// Puts the numbers of an index.
fn put_index<K: Sink>(out: &mut Output, sink: &mut K, index: &[u64]) -> Result<(), WriteFailed>
    ensures puts { Puts (K.taken sink.old) (K.taken sink.new) out.old.text.items (index_text index.now) result out.new.text.items }
    ensures cause { HasCause (K.faults sink.old) (K.faults sink.new) result }
{
    for number in index {
        put_number(out, sink, b" ", *number)?;
    }
    Ok(())
}

// Puts the line of a place that isn't 0, whatever its length.
#[inline(never)]
fn put_long_entry<K: Sink>(
    out: &mut Output,
    sink: &mut K,
    names: &Names,
    entry: &Listed<'_>,
) -> Result<(), WriteFailed>
    ensures puts { Puts (K.taken sink.old) (K.taken sink.new) out.old.text.items (listed_line names.now entry.now) result out.new.text.items }
    ensures cause { HasCause (K.faults sink.old) (K.faults sink.new) result }
{
    out.put(sink, b"array ")?;
    out.put(sink, name_at(names, entry.var))?;
    put_index(out, sink, entry.index)?;
    put_number(out, sink, b" = ", entry.value)?;
    out.put(sink, b"\n")
}

// Puts the line of a place that isn't 0.
fn put_entry<K: Sink>(
    out: &mut Output,
    sink: &mut K,
    names: &Names,
    entry: &Listed<'_>,
) -> Result<(), WriteFailed>
    ensures puts { Puts (K.taken sink.old) (K.taken sink.new) out.old.text.items (listed_line names.now entry.now) result out.new.text.items }
    ensures cause { HasCause (K.faults sink.old) (K.faults sink.new) result }
{
    let mut buffer = [0u8; 256];
    let name = name_at(names, entry.var);
    match put_place_before(&mut buffer, 256, name, entry.index, entry.value) {
        Some(begin) => out.put(sink, &buffer[begin..]),
        None => put_long_entry(out, sink, names, entry),
    }
}

// Puts the lines of places that aren't 0.
fn put_entries<K: Sink>(
    out: &mut Output,
    sink: &mut K,
    names: &Names,
    entries: &[Listed<'_>],
) -> Result<(), WriteFailed>
    ensures puts { Puts (K.taken sink.old) (K.taken sink.new) out.old.text.items (flat_map (listed_line names.now) entries.now) result out.new.text.items }
    ensures cause { HasCause (K.faults sink.old) (K.faults sink.new) result }
{
    for entry in entries {
        put_entry(out, sink, names, entry)?;
        out.write_some(true, sink)?;
    }
    Ok(())
}

/// Puts the end of a report behind the text that waits, the places that aren't 0 and the last line, and writes pieces
/// of both. It needs no memory.
pub(crate) fn put_end<K: Sink>(
    out: &mut Output,
    sink: &mut K,
    names: &Names,
    entries: &[Listed<'_>],
) -> Result<(), WriteFailed>
    ensures puts { Puts (K.taken sink.old) (K.taken sink.new) out.old.text.items (end_text names.now (map entry_of entries.now)) result out.new.text.items }
    ensures cause { HasCause (K.faults sink.old) (K.faults sink.new) result }
{
    put_entries(out, sink, names, entries)?;
    out.put(sink, b"end\n")
}
