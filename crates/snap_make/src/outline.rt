//! Tables but for their rows.

ghost use Rattle.std.specs.Prelude.{◌≡◌, ◌≤◌, ◌<◌, ◌++◌, IfOk, OnOk, length, map};
ghost use Rattle.snap_topology.specs.Tables.{switch_count};
ghost use Rattle.snap_make.specs.Outlined.{AreArrays, IsOutline, written_rank};
ghost use Rattle.snap_make.specs.Pairs.{at_switch, at_switches, hop_entry, hop_for, one_entry};

use snap_core::NoMemory;
use snap_core::lists::{Name, Names};
use snap_core::ports::{Links, Ports};
use snap_core::program::{Fields, Program};
use snap_dep::groups::Groups;
use snap_placement::placement::Placement;
use snap_rows::lists::{ArraysAt, Hops, Rows};
use snap_rows::tables::{ArrayAt, Hop, Tables};
use snap_topology::table::Routes;
use snap_topology::topology::Topology;
use std::alloc::Global;

fn copy_names(alloc: Global, names: &[Name]) -> Result<Vec<Name>, NoMemory>
    ensures { IfOk result (λ r. r.items ≡ names.now) }
{
    let mut copies = Vec::with_capacity(alloc, names.len())?;
    for name in names {
        copies.push(name.copy()?)?;
    }
    Ok(copies)
}

// The rank that stands in the tables.
fn written_rank(version: u8, rank: usize) -> u16
    requires { rank < 65536 }
    ensures { result ≡ written_rank version rank }
{
    if version == 1 { 0 } else { rank as u16 }
}

// The arrays of these names, each with its switch and rank.
fn arrays(
    alloc: Global,
    version: u8,
    names: &[Name],
    groups: &Groups,
    placement: &Placement,
) -> Result<Vec<ArrayAt>, NoMemory>
    requires ranks { length groups.now.ranks ≡ length names.now }
    requires places { length placement.now ≡ length names.now }
    requires few { length groups.now.order ≤ 64 }
    ensures { IfOk result (λ r. AreArrays version names.now placement.now groups.now.ranks (length names.now) r.items) }
{
    let mut arrays = Vec::with_capacity(alloc, groups.count())?;
    for var in 0..groups.count() {
        arrays.push(ArrayAt {
            name: names[var].copy()?,
            at: placement.owner(var as u16),
            rank: written_rank(version, groups.rank(var as u16)),
        })?;
    }
    Ok(arrays)
}

// Adds the next hop from a switch towards a target, if that is another switch.
fn push_hop(hops: &mut Vec<Hop>, routes: &Routes, from: u16, target: usize) -> Result<(), NoMemory>
    requires from { from < switch_count routes.now }
    requires target { target < switch_count routes.now }
    requires few { target < 256 }
    ensures { OnOk result (map hop_entry hops.new.items ≡ map hop_entry hops.old.items ++ one_entry from target (hop_for routes.now from target)) }
{
    if from as usize == target {
        return Ok(());
    }
    Ok(hops.push(Hop {
        from,
        target: target as u16,
        next: routes.next(from, target as u16),
    })?)
}

// Adds the next hops of a switch.
fn push_hops(
    hops: &mut Vec<Hop>,
    routes: &Routes,
    from: u16,
    switches: usize,
) -> Result<(), NoMemory>
    requires count { switch_count routes.now ≡ switches }
    requires few { switches ≤ 256 }
    requires from { from < switches }
    ensures { OnOk result (map hop_entry hops.new.items ≡ map hop_entry hops.old.items ++ at_switch (hop_for routes.now from) from switches) }
{
    for target in 0..switches {
        push_hop(hops, routes, from, target)?;
    }
    Ok(())
}

// The next hop from each switch to each other.
fn hops(alloc: Global, routes: &Routes, switches: usize) -> Result<Vec<Hop>, NoMemory>
    requires count { switch_count routes.now ≡ switches }
    requires few { switches ≤ 256 }
    ensures { IfOk result (λ r. map hop_entry r.items ≡ at_switches (hop_for routes.now) switches switches) }
{
    let mut hops = Vec::with_capacity(alloc, switches * switches)?;
    for from in 0..switches {
        push_hops(&mut hops, routes, from as u16, switches)?;
    }
    Ok(hops)
}

// The links and ports of a topology.
fn borders(alloc: Global, topology: &Topology) -> Result<(Links, Ports), NoMemory>
    ensures { IfOk result (λ r. (r.0 ≡ topology.now.links) × (r.1 ≡ topology.now.ports)) }
{
    let links = Links::new(Vec::from_slice(alloc, topology.links.items())?);
    let ports = Ports::new(Vec::from_slice(alloc, topology.ports.items())?);
    Ok((links, ports))
}

// The switches of a topology, and the next hops between them.
fn switches(alloc: Global, topology: &Topology, routes: &Routes) -> Result<(Names, Hops), NoMemory>
    requires count { switch_count routes.now ≡ length topology.now.switches }
    requires few { length topology.now.switches ≤ 256 }
    ensures { IfOk result (λ r. (r.0 ≡ topology.now.switches) × (map hop_entry r.1 ≡ at_switches (hop_for routes.now) (length topology.now.switches) (length topology.now.switches))) }
{
    let items = topology.switches.items();
    let hops = Hops::new(hops(alloc, routes, items.len())?);
    let names = Names::new(copy_names(alloc, items)?);
    Ok((names, hops))
}

// The fields of a program, and its arrays.
fn declared(
    alloc: Global,
    version: u8,
    program: &Program,
    groups: &Groups,
    placement: &Placement,
) -> Result<(Fields, ArraysAt), NoMemory>
    requires ranks { length groups.now.ranks ≡ length program.now.arrays }
    requires places { length placement.now ≡ length program.now.arrays }
    requires few { length groups.now.order ≤ 64 }
    ensures { IfOk result (λ r. (r.0 ≡ program.now.fields) × AreArrays version program.now.arrays placement.now groups.now.ranks (length program.now.arrays) r.1) }
{
    let fields = program.fields.copy()?;
    let arrays = ArraysAt::new(arrays(alloc, version, program.arrays.items(), groups, placement)?);
    Ok((fields, arrays))
}

/// The tables of a version without rows. Refuses for memory alone.
pub(crate) fn outline(
    alloc: Global,
    version: u8,
    program: &Program,
    groups: &Groups,
    topology: &Topology,
    placement: &Placement,
    routes: &Routes,
) -> Result<Tables, NoMemory>
    requires ranks { length groups.now.ranks ≡ length program.now.arrays }
    requires places { length placement.now ≡ length program.now.arrays }
    requires few { length groups.now.order ≤ 64 }
    requires count { switch_count routes.now ≡ length topology.now.switches }
    requires few_switches { length topology.now.switches ≤ 256 }
    ensures { IfOk result (IsOutline version program.now topology.now placement.now routes.now groups.now.ranks) }
{
    let (links, ports) = borders(alloc, topology)?;
    let (switches, hops) = switches(alloc, topology, routes)?;
    let (fields, arrays) = declared(alloc, version, program, groups, placement)?;
    Ok(Tables {
        version,
        fields,
        switches,
        arrays,
        links,
        ports,
        hops,
        rows: Rows::new(Vec::new(alloc), Vec::new(alloc)),
    })
}
