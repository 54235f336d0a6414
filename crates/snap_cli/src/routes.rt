//! The command `routes`: distances and next hops.

ghost use Rattle.std.specs.Prelude.{◌≡◌, ◌≢◌, ◌<◌, ◌≤◌, ◌++◌, ◌∷◌, [], IfOk, IfSome, OnErr, OnOk, length};
ghost use Rattle.std.specs.Io.KnownBytes.{Appends};
ghost use Rattle.snap_io.specs.Causes.{HasCause};
ghost use Rattle.snap_io.specs.Sinks.{AppendsPart};
ghost use Rattle.snap_topology.specs.Form.{IsWellFormed};
ghost use Rattle.snap_topology.specs.Tables.{switch_count};
ghost use Rattle.snap_words.specs.Commands.{routes};
ghost use Rattle.snap_cli.specs.Causes.{OnlyWrites, ReadsAndWrites};
ghost use Rattle.snap_cli.specs.Deserved.{Meets};
ghost use Rattle.snap_cli.specs.Routes.{end_text, line_between, lines_from, route_line, routes_text};
ghost use Rattle.snap_cli.specs.RoutesSteps.{MeetsTopology, Writes, refusal_of_routes};
ghost use Rattle.snap_cli.specs.Statuses.{EndsWith, statuses_of};

use crate::refusal::{Refusal, name_at};
use crate::topology::load_topology;
use itoa::Buffer;
use snap_core::NoMemory;
use snap_core::lists::Names;
use snap_io::{Shelf, Sink, WriteFailed, write_pieces, write_whole};
use snap_topology::calls::routes;
use snap_topology::table::{RouteFault, Routes};
use snap_topology::topology::Topology;
use std::alloc::Global;

/// Writes the distances and next hops between the switches of the topology in the file with this name.
pub(crate) fn report<'a, S: Shelf, O: Sink>(
    alloc: Global,
    name: &'a [u8],
    shelf: &mut S,
    out: &mut O,
) -> Result<(), Refusal<'a>>
    ensures meets { IfSome (S.files shelf.old) (λ files.
        Meets files (routes name.entry.now) result (O.taken out.old) (O.taken out.new)) }
    ensures devices { ReadsAndWrites (S.files shelf.old) (S.files shelf.new) (S.faults shelf.old) (S.faults shelf.new)
        (O.faults out.old) (O.faults out.new) result }
    ensures statuses { EndsWith (statuses_of (routes name.entry.now)) result }
{
    let topology = load_topology(alloc, shelf, name)?;
    report_of(alloc, topology, out)
}

// Writes the routes of a topology that was read.
fn report_of<'a, O: Sink>(alloc: Global, topology: Topology, out: &mut O) -> Result<(), Refusal<'a>>
    requires { IsWellFormed topology }
    ensures meets { MeetsTopology topology result (O.taken out.old) (O.taken out.new) }
    ensures devices { OnlyWrites (O.faults out.old) (O.faults out.new) result }
{
    match routes(alloc, &topology) {
        Ok(routes) => write_routes(alloc, &topology.switches, &routes, out),
        Err(fault) => Err(refusal_of_routes(topology.switches, fault)),
    }
}

/// The refusal of a topology of these switches that has no routes.
pub(crate) fn refusal_of_routes<'a>(switches: Names, fault: RouteFault) -> Refusal<'a>
    ensures { result ≡ refusal_of_routes switches fault }
{
    match fault {
        RouteFault::Unreachable { a, b } => Refusal::Unreachable { switches, a, b },
        RouteFault::NoMemory => Refusal::NoMemory,
    }
}

// Writes the routes of a topology. Memory holds the lines from one switch.
fn write_routes<'a, O: Sink>(
    alloc: Global,
    switches: &Names,
    routes: &Routes,
    out: &mut O,
) -> Result<(), Refusal<'a>>
    requires few { length switches.now ≤ 256 }
    requires count { switch_count routes.now ≡ length switches.now }
    ensures writes { Writes (routes_text switches.now routes.now) result (O.taken out.old) (O.taken out.new) }
    ensures devices { OnlyWrites (O.faults out.old) (O.faults out.new) result }
{
    for a in 0..switches.items().len() as u16 {
        let lines = lines_from(alloc, switches, routes, a)?;
        write_whole(out, &lines)?;
    }
    write_end(out, routes.diameter())?;
    Ok(())
}

// Writes the diameter and the last line.
fn write_end<O: Sink>(out: &mut O, diameter: u32) -> Result<(), WriteFailed>
    ensures ok { OnOk result (Appends (O.taken out.old) (O.taken out.new) (end_text diameter)) }
    ensures err { OnErr result (AppendsPart (O.taken out.old) (O.taken out.new) (end_text diameter)) }
    ensures cause { HasCause (O.faults out.old) (O.faults out.new) result }
{
    let mut digits = Buffer::new();
    let diameter = digits.format(diameter).as_bytes();
    write_pieces(out, &[b"diameter ", diameter, b"\nend\n"])
}

// The lines from one switch.
fn lines_from(alloc: Global, switches: &Names, routes: &Routes, a: u16) -> Result<Vec<u8>, NoMemory>
    requires few { length switches.now ≤ 256 }
    requires count { switch_count routes.now ≡ length switches.now }
    requires from { a < length switches.now }
    ensures { IfOk result (λ text. text.items ≡ lines_from switches.now routes.now a) }
{
    let mut text = Vec::new(alloc);
    for b in 0..switches.items().len() as u16 {
        put_between(&mut text, switches, routes, a, b)?;
    }
    Ok(text)
}

// Puts the line of two switches behind the text, where they are different.
fn put_between(
    text: &mut Vec<u8>,
    switches: &Names,
    routes: &Routes,
    a: u16,
    b: u16,
) -> Result<(), NoMemory>
    requires from { a < switch_count routes.now }
    requires to { b < switch_count routes.now }
    ensures { OnOk result (text.new.items ≡ text.old.items ++ line_between switches.now routes.now a b) }
{
    if a == b {
        return Ok(());
    }
    put_line(text, switches, routes, a, b)
}

// Puts the line of two different switches.
fn put_line(
    text: &mut Vec<u8>,
    switches: &Names,
    routes: &Routes,
    a: u16,
    b: u16,
) -> Result<(), NoMemory>
    requires from { a < switch_count routes.now }
    requires to { b < switch_count routes.now }
    requires different { a ≢ b }
    ensures { OnOk result (text.new.items ≡ text.old.items ++ route_line switches.now routes.now a b) }
{
    text.extend_from_slice(b"route ")?;
    put_word(text, name_at(switches, a), b' ')?;
    put_word(text, name_at(switches, b), b' ')?;
    let mut digits = Buffer::new();
    put_word(text, digits.format(routes.distance(a, b)).as_bytes(), b' ')?;
    put_word(text, name_at(switches, routes.next(a, b)), b'\n')
}

// Puts a word and the byte behind it.
fn put_word(text: &mut Vec<u8>, word: &[u8], behind: u8) -> Result<(), NoMemory>
    ensures { OnOk result (text.new.items ≡ text.old.items ++ (word.now ++ behind ∷ [])) }
{
    text.extend_from_slice(word)?;
    text.push(behind)?;
    Ok(())
}
