//! Routes, and why a topology has none.

ghost use Rattle.std.specs.Prelude.{◌≡◌, ◌≢◌, ◌<◌, length, slice_index};
ghost use Rattle.snap_topology.specs.Tables.{IsSquare, distance_of, next_of, row_by, switch_count};

use snap_core::NoMemory;
use std::alloc::{AllocError, AllocFailed};
use std::marker::Model;
use thiserror::Error;

/// Why a topology has no routes.
#[derive(Clone, Copy, Debug, PartialEq, Eq, Error)]
pub enum RouteFault {
    /// No walk joins the two switches, the least such pair with `a` below `b`.
    #[error("no walk from {a} to {b}")]
    Unreachable { a: u16, b: u16 },
    /// Memory ran out.
    #[error("out of memory")]
    NoMemory,
}

/// The distance and the next hop from each switch to one target.
#[derive(Drop)]
pub(crate) struct Toward {
    hops: Vec<(u32, u16)>,
}

impl Model for Toward {
    ghost use Rattle.snap_topology.specs.Tables.{Row, row_by};

    ghost Value = { Row };

    ghost view = { λ a. row_by a.hops.items };
}

impl Toward {
    pub(crate) fn new(hops: Vec<(u32, u16)>) -> Toward
        ensures { result ≡ row_by hops.items }
    {
        Toward { hops }
    }

    pub(crate) fn distance(&self, from: u16) -> u32
        requires { from < length self.now.distances }
        ensures { result ≡ slice_index self.now.distances from }
    {
        self.hops[from as usize].0
    }

    pub(crate) fn next(&self, from: u16) -> u16
        requires { from < length self.now.nexts }
        ensures { result ≡ slice_index self.now.nexts from }
    {
        self.hops[from as usize].1
    }

    pub(crate) fn hops(&self) -> &[(u32, u16)]
        ensures { self.now ≡ row_by result.now }
    {
        &self.hops
    }
}

/// The routes of a topology. Switches are given by number, below the count of switches.
#[derive(Drop)]
pub struct Routes {
    toward: Vec<Toward>,
    diameter: u32,
}

impl Model for Routes {
    ghost use Rattle.snap_topology.specs.Tables.{IsSquare, Table};

    ghost Value = { Table };

    ghost view = { λ a. record { rows = a.toward.items; diameter = a.diameter } };

    ghost invariant = { λ a. IsSquare (record { rows = a.toward.items; diameter = a.diameter }) };
}

impl Routes {
    pub(crate) fn new(toward: Vec<Toward>, diameter: u32) -> Routes
        requires { IsSquare (record { rows = toward.items; diameter = diameter }) }
        ensures { result ≡ record { rows = toward.items; diameter = diameter } }
    {
        Routes { toward, diameter }
    }

    /// The least number of links of a walk from `a` to `b`. Takes no memory.
    pub fn distance(&self, a: u16, b: u16) -> u32
        requires from { a < switch_count self.now }
        requires to { b < switch_count self.now }
        ensures { result ≡ distance_of self.now a b }
    {
        self.toward[b as usize].distance(a)
    }

    /// The next switch on the way from `a` to `b`: of the neighbours of `a` with the least distance to `b` the one of
    /// least number. Takes no memory.
    pub fn next(&self, a: u16, b: u16) -> u16
        requires from { a < switch_count self.now }
        requires to { b < switch_count self.now }
        requires different { a ≢ b }
        ensures { result ≡ next_of self.now a b }
    {
        self.toward[b as usize].next(a)
    }

    /// The greatest distance between two switches. Takes no memory.
    pub fn diameter(&self) -> u32
        ensures { result ≡ self.now.diameter }
    {
        self.diameter
    }
}

impl From<AllocError> for RouteFault {
    ghost use Rattle.snap_topology.specs.declared.table.RouteFault.TheVariants.{NoMemory};

    ghost from_gives = { λ _ e. e ≡ NoMemory };

    fn from(_: AllocError) -> RouteFault {
        RouteFault::NoMemory
    }
}

impl<T: Drop> From<AllocFailed<T>> for RouteFault {
    ghost use Rattle.snap_topology.specs.declared.table.RouteFault.TheVariants.{NoMemory};

    ghost from_gives = { λ _ e. e ≡ NoMemory };

    fn from(_: AllocFailed<T>) -> RouteFault {
        RouteFault::NoMemory
    }
}

impl From<NoMemory> for RouteFault {
    ghost use Rattle.snap_topology.specs.declared.table.RouteFault.TheVariants.{NoMemory};

    ghost from_gives = { λ _ e. e ≡ NoMemory };

    fn from(_: NoMemory) -> RouteFault {
        RouteFault::NoMemory
    }
}
