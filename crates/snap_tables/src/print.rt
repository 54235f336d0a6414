//! The text of tables, written.

ghost use Rattle.std.specs.Prelude.{◌≡◌, ◌++◌, length, OnOk, OnErr};
ghost use Rattle.std.specs.List.{All, flat_map};
ghost use Rattle.snap_rows.specs.Bodies.{IsPlaced};
ghost use Rattle.std.specs.Io.KnownBytes.{Appends};
ghost use Rattle.snap_io.specs.Outputs.{Puts};
ghost use Rattle.snap_io.specs.Sinks.{AppendsPart};
ghost use Rattle.snap_tables.specs.Print.{Blames};
ghost use Rattle.snap_rows.specs.Form.{IsWellFormed};
ghost use Rattle.snap_tables.specs.RowParts.{placed_line};
ghost use Rattle.snap_tables.specs.ReadBack.{IsReadBack};
ghost use Rattle.snap_tables.specs.Text.{array_line, field_line, hop_line, last_line, link_line, port_line, names_text, switch_line, text, text_with, ways_text};

use crate::fault::PrintFault;
use crate::line::{Entry, put_first, put_last};
use crate::ranges::know_tables;
use crate::row_parts::RowParts;
use snap_io::{Output, Sink, write_whole};
use snap_rows::lists::Placed;
use snap_rows::proved::Proved;
use snap_rows::tables::{Row, Tables};
use snap_rows::valid::Valid;
use std::alloc::Global;

// Puts the line of an entry behind the text that waits, and writes that where it has grown to a piece.
fn put_entry<T: Entry, K: Sink>(
    out: &mut Output,
    sink: &mut K,
    version: u8,
    entry: &T,
) -> Result<(), PrintFault>
    ensures puts { Puts (K.taken sink.old) (K.taken sink.new) out.old.text.items (T.entry_line version entry.now) result out.new.text.items }
    ensures blames { Blames (K.faults sink.old) (K.faults sink.new) result }
{
    entry.put_line(&mut out.text, version)?;
    out.write_some(true, sink)?;
    Ok(())
}

// Puts the lines of a section.
fn put_section<T: Entry, K: Sink>(
    out: &mut Output,
    sink: &mut K,
    version: u8,
    entries: &[T],
) -> Result<(), PrintFault>
    ensures puts { Puts (K.taken sink.old) (K.taken sink.new) out.old.text.items (flat_map (T.entry_line version) entries.now) result out.new.text.items }
    ensures blames { Blames (K.faults sink.old) (K.faults sink.new) result }
{
    for entry in entries {
        put_entry(out, sink, version, entry)?;
    }
    Ok(())
}

// Puts the lines of fields.
fn put_fields<K: Sink>(out: &mut Output, sink: &mut K, tables: &Tables) -> Result<(), PrintFault>
    ensures puts { Puts (K.taken sink.old) (K.taken sink.new) out.old.text.items (flat_map field_line tables.now.fields) result out.new.text.items }
    ensures blames { Blames (K.faults sink.old) (K.faults sink.new) result }
{
    put_section(out, sink, tables.version, tables.fields.list())
}

// Puts the lines of switches.
fn put_switches<K: Sink>(out: &mut Output, sink: &mut K, tables: &Tables) -> Result<(), PrintFault>
    ensures puts { Puts (K.taken sink.old) (K.taken sink.new) out.old.text.items (flat_map switch_line tables.now.switches) result out.new.text.items }
    ensures blames { Blames (K.faults sink.old) (K.faults sink.new) result }
{
    put_section(out, sink, tables.version, tables.switches.items())
}

// Puts the lines of arrays.
fn put_arrays<K: Sink>(out: &mut Output, sink: &mut K, tables: &Tables) -> Result<(), PrintFault>
    ensures puts { Puts (K.taken sink.old) (K.taken sink.new) out.old.text.items (flat_map (array_line tables.now.version) tables.now.arrays) result out.new.text.items }
    ensures blames { Blames (K.faults sink.old) (K.faults sink.new) result }
{
    put_section(out, sink, tables.version, tables.arrays.items())
}

// Puts the lines of links.
fn put_links<K: Sink>(out: &mut Output, sink: &mut K, tables: &Tables) -> Result<(), PrintFault>
    ensures puts { Puts (K.taken sink.old) (K.taken sink.new) out.old.text.items (flat_map link_line tables.now.links) result out.new.text.items }
    ensures blames { Blames (K.faults sink.old) (K.faults sink.new) result }
{
    put_section(out, sink, tables.version, tables.links.items())
}

// Puts the lines of ports.
fn put_ports<K: Sink>(out: &mut Output, sink: &mut K, tables: &Tables) -> Result<(), PrintFault>
    ensures puts { Puts (K.taken sink.old) (K.taken sink.new) out.old.text.items (flat_map port_line tables.now.ports) result out.new.text.items }
    ensures blames { Blames (K.faults sink.old) (K.faults sink.new) result }
{
    put_section(out, sink, tables.version, tables.ports.items())
}

// Puts the lines of next hops.
fn put_hops<K: Sink>(out: &mut Output, sink: &mut K, tables: &Tables) -> Result<(), PrintFault>
    ensures puts { Puts (K.taken sink.old) (K.taken sink.new) out.old.text.items (flat_map hop_line tables.now.hops) result out.new.text.items }
    ensures blames { Blames (K.faults sink.old) (K.faults sink.new) result }
{
    put_section(out, sink, tables.version, tables.hops.items())
}

// Puts the lines of fields, switches and arrays.
fn put_names<K: Sink>(out: &mut Output, sink: &mut K, tables: &Tables) -> Result<(), PrintFault>
    ensures puts { Puts (K.taken sink.old) (K.taken sink.new) out.old.text.items (names_text tables.now) result out.new.text.items }
    ensures blames { Blames (K.faults sink.old) (K.faults sink.new) result }
{
    put_fields(out, sink, tables)?;
    put_switches(out, sink, tables)?;
    put_arrays(out, sink, tables)
}

// Puts the lines of links, ports and next hops.
fn put_ways<K: Sink>(out: &mut Output, sink: &mut K, tables: &Tables) -> Result<(), PrintFault>
    ensures puts { Puts (K.taken sink.old) (K.taken sink.new) out.old.text.items (ways_text tables.now) result out.new.text.items }
    ensures blames { Blames (K.faults sink.old) (K.faults sink.new) result }
{
    put_links(out, sink, tables)?;
    put_ports(out, sink, tables)?;
    put_hops(out, sink, tables)
}

// Puts the line of a row, as that of an entry.
fn put_row<K: Sink>(
    out: &mut Output,
    sink: &mut K,
    parts: &RowParts,
    bodies: &[Row],
    row: &Placed,
) -> Result<(), PrintFault>
    requires long { length parts.now.numbers.items ≡ length bodies.now }
    requires placed { IsPlaced bodies.now row.now }
    ensures puts { Puts (K.taken sink.old) (K.taken sink.new) out.old.text.items (placed_line parts.now bodies.now row.now) result out.new.text.items }
    ensures blames { Blames (K.faults sink.old) (K.faults sink.new) result }
{
    parts.put_line(&mut out.text, bodies, row)?;
    out.write_some(true, sink)?;
    Ok(())
}

// Puts the lines of rows.
fn put_rows<K: Sink>(
    out: &mut Output,
    sink: &mut K,
    parts: &RowParts,
    bodies: &[Row],
    rows: &[Placed],
) -> Result<(), PrintFault>
    requires long { length parts.now.numbers.items ≡ length bodies.now }
    requires placed { All (IsPlaced bodies.now) rows.now }
    ensures puts { Puts (K.taken sink.old) (K.taken sink.new) out.old.text.items (flat_map (placed_line parts.now bodies.now) rows.now) result out.new.text.items }
    ensures blames { Blames (K.faults sink.old) (K.faults sink.new) result }
{
    for row in rows {
        put_row(out, sink, parts, bodies, row)?;
    }
    Ok(())
}

// Puts all lines between the first and the last.
fn put_sections<K: Sink>(
    out: &mut Output,
    sink: &mut K,
    parts: &RowParts,
    tables: &Tables,
    bodies: &[Row],
    rows: &[Placed],
) -> Result<(), PrintFault>
    requires long { length parts.now.numbers.items ≡ length bodies.now }
    requires placed { All (IsPlaced bodies.now) rows.now }
    ensures puts { Puts (K.taken sink.old) (K.taken sink.new) out.old.text.items (names_text tables.now ++ (ways_text tables.now ++ flat_map (placed_line parts.now bodies.now) rows.now)) result out.new.text.items }
    ensures blames { Blames (K.faults sink.old) (K.faults sink.new) result }
{
    put_names(out, sink, tables)?;
    put_ways(out, sink, tables)?;
    put_rows(out, sink, parts, bodies, rows)
}

// Writes the last line behind the text that waits.
fn put_end<K: Sink>(out: &mut Output, sink: &mut K) -> Result<(), PrintFault>
    ensures ok { OnOk result (Appends (K.taken sink.old) (K.taken sink.new) (out.old.text.items ++ last_line)) }
    ensures part { OnErr result (AppendsPart (K.taken sink.old) (K.taken sink.new) (out.old.text.items ++ last_line)) }
    ensures blames { Blames (K.faults sink.old) (K.faults sink.new) result }
{
    put_last(&mut out.text)?;
    write_whole(sink, &out.text)?;
    Ok(())
}

// Writes the text of tables but for their rows, with the lines of these in the place of those.
fn print_rows<K: Sink>(
    alloc: Global,
    tables: &Tables,
    parts: &RowParts,
    bodies: &[Row],
    rows: &[Placed],
    sink: &mut K,
) -> Result<(), PrintFault>
    requires long { length parts.now.numbers.items ≡ length bodies.now }
    requires placed { All (IsPlaced bodies.now) rows.now }
    ensures ok { OnOk result (Appends (K.taken sink.old) (K.taken sink.new) (text_with tables.now (flat_map (placed_line parts.now bodies.now) rows.now))) }
    ensures part { OnErr result (AppendsPart (K.taken sink.old) (K.taken sink.new) (text_with tables.now (flat_map (placed_line parts.now bodies.now) rows.now))) }
    ensures blames { Blames (K.faults sink.old) (K.faults sink.new) result }
{
    let mut out = Output::with_room(alloc)?;
    put_first(&mut out.text, tables.version)?;
    put_sections(&mut out, sink, parts, tables, bodies, rows)?;
    put_end(&mut out, sink)
}

// Writes the text of tables in form, and makes the words of each body once.
fn print_tables<K: Sink>(alloc: Global, tables: &Tables, sink: &mut K) -> Result<(), PrintFault>
    requires { IsWellFormed tables.now }
    ensures ok { OnOk result (Appends (K.taken sink.old) (K.taken sink.new) (text tables.now)) }
    ensures part { OnErr result (AppendsPart (K.taken sink.old) (K.taken sink.new) (text tables.now)) }
    ensures blames { Blames (K.faults sink.old) (K.faults sink.new) result }
{
    let (bodies, rows) = tables.rows.parts();
    let parts = RowParts::of(alloc, tables.switches.items().len(), bodies, rows)?;
    print_rows(alloc, tables, &parts, bodies, rows, sink)
}

/// Writes the text of tables (`docs/FORMATS.md`, "Tables") in pieces of about 64 KiB. Takes memory in proportion to the
/// bodies of rows. `Write` comes only where the sink failed; `NoMemory` for want of memory; after a refusal some first bytes
/// went out, and no others. `read` of the text gives these tables.
pub fn print<K: Sink>(alloc: Global, tables: &Valid, sink: &mut K) -> Result<(), PrintFault>
    ensures ok { OnOk result (Appends (K.taken sink.old) (K.taken sink.new) (text tables.now)) }
    ensures part { OnErr result (AppendsPart (K.taken sink.old) (K.taken sink.new) (text tables.now)) }
    ensures blames { Blames (K.faults sink.old) (K.faults sink.new) result }
    ensures back { IsReadBack tables.now }
{
    let tables = tables.tables();
    know_tables(tables);
    print_tables(alloc, tables, sink)
}

/// Writes the text of proved tables as `print` does.
pub fn print_proved<K: Sink>(alloc: Global, tables: &Proved, sink: &mut K) -> Result<(), PrintFault>
    ensures ok { OnOk result (Appends (K.taken sink.old) (K.taken sink.new) (text tables.now)) }
    ensures part { OnErr result (AppendsPart (K.taken sink.old) (K.taken sink.new) (text tables.now)) }
    ensures blames { Blames (K.faults sink.old) (K.faults sink.new) result }
    ensures back { IsReadBack tables.now }
{
    let tables = tables.tables();
    know_tables(tables);
    print_tables(alloc, tables, sink)
}
