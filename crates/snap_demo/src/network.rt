//! The topology, its routes, and the placement.

ghost use Rattle.std.specs.Prelude.{◌≡◌, ◌≤◌, IfOk};
ghost use Rattle.snap_topology.specs.Tables.{AreRoutes};
ghost use Rattle.snap_demo.specs.Row.{links, ports, stated_places, stated_topology, switch_name, switches};

use snap_core::NoMemory;
use snap_core::lists::{Name, Names};
use snap_core::ports::{Links, PortAt, Ports};
use snap_placement::placement::Placement;
use snap_report::report::put_number;
use snap_topology::calls::routes;
use snap_topology::table::{RouteFault, Routes};
use snap_topology::topology::Topology;
use std::alloc::Global;

/// So many switches in a row, with a port at each.
pub(crate) fn topology(alloc: Global, count: u16) -> Result<Topology, NoMemory>
    requires { count ≤ 64 }
    ensures { IfOk result (λ t. t ≡ stated_topology count) }
{
    Ok(Topology {
        switches: switches(alloc, count)?,
        links: links(alloc, count)?,
        ports: ports(alloc, count)?,
    })
}

fn switches(alloc: Global, count: u16) -> Result<Names, NoMemory>
    ensures { IfOk result (λ made. made ≡ switches count) }
{
    let mut names = Vec::new(alloc);
    for i in 0..count {
        names.push(switch_name(alloc, i)?)?;
    }
    Ok(Names::new(names))
}

fn switch_name(alloc: Global, number: u16) -> Result<Name, NoMemory>
    ensures { IfOk result (λ name. name ≡ switch_name number) }
{
    let mut name = Vec::new(alloc);
    name.push(b'n')?;
    put_number(&mut name, number as u64)?;
    Ok(Name::new(name))
}

fn links(alloc: Global, count: u16) -> Result<Links, NoMemory>
    requires { count ≤ 64 }
    ensures { IfOk result (λ made. made ≡ links count) }
{
    let mut pairs = Vec::new(alloc);
    for i in 0..count.saturating_sub(1) {
        pairs.push((i, i + 1))?;
    }
    Ok(Links::new(pairs))
}

fn ports(alloc: Global, count: u16) -> Result<Ports, NoMemory>
    ensures { IfOk result (λ made. made ≡ ports count) }
{
    let mut ports = Vec::new(alloc);
    for i in 0..count {
        ports.push(PortAt {
            port: i as u32 + 1,
            at: i,
        })?;
    }
    Ok(Ports::new(ports))
}

/// The routes. Each two switches are joined by those between them.
pub(crate) fn row_routes(alloc: Global, topology: &Topology, count: u16) -> Result<Routes, NoMemory>
    requires some { 1 ≤ count }
    requires few { count ≤ 64 }
    requires topology { topology.now ≡ stated_topology count }
    ensures { IfOk result (AreRoutes topology.now) }
{
    match routes(alloc, topology) {
        Ok(routes) => Ok(routes),
        Err(RouteFault::NoMemory) => Err(NoMemory),
        Err(RouteFault::Unreachable { .. }) => unreachable!(),
    }
}

/// `seen` at the switch in the middle, and `count` at the first one.
pub(crate) fn placement(alloc: Global, count: u16) -> Result<Placement, NoMemory>
    ensures { IfOk result (λ made. made ≡ stated_places count) }
{
    let mut places = Vec::new(alloc);
    places.push(count / 2)?;
    places.push(0)?;
    Ok(Placement::new(places))
}
