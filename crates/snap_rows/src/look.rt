//! Looking up rows, hops, ports and ranks.

ghost use Rattle.std.specs.Prelude.{◌≡◌, ◌↔◌, IsTrue, Some, map, length, slice_index, option_map, IfSome, IfNone, IsSome, is_some, slice_get, nat_lt, ◌<◌, All, true, false, None};
ghost use Rattle.std.specs.List.Sorted.{IsStrictlySortedBy, IsPartitionPoint};
ghost use Rattle.std.specs.Ordering.{nat_cmp};
ghost use Rattle.snap_core.specs.Switch.{goes_out};
ghost use Rattle.snap_core.specs.declared.ports.PortAt.{PortAt};
ghost use Rattle.snap_rows.specs.declared.lists.Placed.{Placed};
ghost use Rattle.snap_rows.specs.declared.tables.ArrayAt.{ArrayAt};
ghost use Rattle.snap_rows.specs.declared.tables.Row.{Row};
ghost use Rattle.snap_rows.specs.declared.tables.RowAt.{RowAt};
ghost use Rattle.snap_rows.specs.declared.tables.Hop.{Hop};
ghost use Rattle.snap_rows.specs.Form.{IsRowWellFormed, IsWellFormed, row_cmp, hop_cmp, array_count, switch_count};
ghost use Rattle.snap_rows.specs.Places.{IsRowPlace, StandBefore, hop_said, is_before, port_said};
ghost use Rattle.snap_rows.specs.Rules.{IsValid};
ghost use Rattle.snap_rows.specs.Aims.{aim_of};
ghost use Rattle.snap_core.specs.Ports.{port_in};
ghost use Rattle.snap_rows.specs.Entries.{row_in, row_at, hop_in, next, port_at, rank_in, rank_at, rank_of, ranks_in, var_of, owner_of};

use crate::head::Head;
use crate::lists::{Placed, Rows};
use crate::tables::{ArrayAt, Hop, Row, Tables};
use crate::valid::Valid;
use snap_core::packet::Packet;
use snap_core::policy::Test;
use snap_core::ports::PortAt;

impl Valid {
    /// The row of a switch and number.
    pub(crate) fn row(&self, at: u16, number: u64) -> Option<&Row>
        ensures row { option_map (λ r. r.now) result ≡ row_at self.now at number }
        ensures form { IfSome result (λ r. IsRowWellFormed self.now r.now) }
        ensures valid { IsValid self.now }
        ensures all_form { IsWellFormed self.now }
    {
        self.row_near(self.shift(at), at, number)
    }

    /// The shift of a switch, by which its rows are found.
    #[inline(always)]
    pub(crate) fn shift(&self, at: u16) -> u64 {
        self.guesses().shift(at)
    }

    // The row of a switch and number, by the shift of the switch.
    #[inline(always)]
    fn row_near(&self, shift: u64, at: u16, number: u64) -> Option<&Row>
        ensures row { option_map (λ r. r.now) result ≡ row_at self.now at number }
        ensures form { IfSome result (λ r. IsRowWellFormed self.now r.now) }
        ensures valid { IsValid self.now }
        ensures all_form { IsWellFormed self.now }
    {
        row(
            &self.tables().rows,
            self.guesses().near(shift, number),
            at,
            number,
        )
    }

    /// The row of a switch and number that have one, by the shift of the switch.
    #[inline(always)]
    pub(crate) fn row_there(&self, shift: u64, at: u16, number: u64) -> &Row
        requires { IsSome (row_at self.now at number) }
        ensures row { row_at self.now at number ≡ Some result.now }
        ensures form { IsRowWellFormed self.now result.now }
    {
        match self.row_near(shift, at, number) {
            Some(row) => row,
            None => unreachable!(),
        }
    }

    /// The next hop of a switch towards another.
    pub fn next(&self, at: u16, target: u16) -> u16
        ensures { result ≡ next self.now at target }
    {
        next(self.tables(), at, target)
    }

    /// The switch of a port.
    pub fn port_at(&self, number: u64) -> Option<u16>
        ensures { result ≡ port_at self.now number }
    {
        match port(self.tables().ports.items(), number) {
            Some(entry) => Some(entry.at),
            None => None,
        }
    }

    /// The switch of an array.
    pub fn owner_of(&self, var: u16) -> u16
        requires { var < array_count self.now }
        ensures owner { owner_of self.now var ≡ Some result }
        ensures below { result < switch_count self.now }
    {
        let tables = self.tables();
        tables.arrays.items()[var as usize].at
    }

    /// The rank of a state test's array.
    pub(crate) fn rank_of(&self, test: &Test) -> u16
        ensures { result ≡ rank_of self.now (var_of test.now) }
    {
        rank_of_test(self.tables(), test)
    }

    /// The rank of an array.
    pub(crate) fn rank(&self, var: u16) -> u16
        ensures { result ≡ rank_of self.now var }
    {
        rank(self.tables(), var)
    }

    /// The owner of a rank.
    pub fn rank_at(&self, rank: u16) -> Option<u16>
        ensures { result ≡ rank_at self.now rank }
    {
        rank_at(self.tables().arrays.items(), rank)
    }

    /// The switch to which a copy with this head goes before anything else is done with it, if its head says one. Takes
    /// no memory.
    #[inline(always)]
    pub fn aim(&self, head: Head) -> Option<u16>
        ensures { result ≡ aim_of self.now head }
    {
        match head {
            Head::Out { port } => self.port_at(port as u64),
            Head::Visit { rank, .. } => self.rank_at(rank),
            Head::Walk { .. } => None,
            Head::Stage { .. } => None,
        }
    }
}

// The rank of an array.
fn rank(tables: &Tables, var: u16) -> u16
    ensures { result ≡ rank_of tables.now var }
{
    match tables.arrays.items().get(var as usize) {
        Some(array) => array.rank,
        None => 0,
    }
}

/// The rank of a state test's array.
pub(crate) fn rank_of_test(tables: &Tables, test: &Test) -> u16
    ensures { result ≡ rank_of tables.now (var_of test.now) }
{
    match test {
        Test::State { var, .. } => rank(tables, *var),
        Test::Value { .. } => rank(tables, 0),
        Test::Equal { .. } => rank(tables, 0),
    }
}

// Whether a row stands before that of a switch and number.
fn row_is_before(entry: &Placed, at: u16, number: u64) -> bool
    ensures { result ≡ is_before (λ (p : Placed). p.at) (λ (p : Placed). p.number) at number entry.now }
{
    entry.at < at || (entry.at == at && entry.number < number)
}

// How many rows stand before that of a switch and number.
fn rows_before(rows: &Rows, at: u16, number: u64) -> usize
    requires { IsStrictlySortedBy row_cmp rows.now }
    ensures { StandBefore (λ (r : RowAt). r.at) (λ (r : RowAt). r.number) at number rows.now result }
{
    let (_, placed) = rows.parts();
    placed.partition_point(|entry| row_is_before(entry, at, number))
}

// Whether the row of a switch and number stands at a place.
fn stands_at(rows: &Rows, place: usize, at: u16, number: u64) -> bool
    ensures { IsTrue result ↔ IsRowPlace rows.now at number place }
{
    match rows.get(place) {
        Some(entry) => entry.at == at && entry.number == number,
        None => false,
    }
}

// The place of the row of a switch and number, by a search.
fn searched_row(rows: &Rows, at: u16, number: u64) -> Option<usize>
    requires { IsStrictlySortedBy row_cmp rows.now }
    ensures some { IfSome result (IsRowPlace rows.now at number) }
    ensures none { IfNone result (row_in rows.now at number ≡ None) }
{
    let place = rows_before(rows, at, number);
    if stands_at(rows, place, at, number) {
        Some(place)
    } else {
        None
    }
}

/// The place of the row of a switch and number, which is probably this one.
pub(crate) fn row_place(rows: &Rows, guess: usize, at: u16, number: u64) -> Option<usize>
    requires { IsStrictlySortedBy row_cmp rows.now }
    ensures some { IfSome result (IsRowPlace rows.now at number) }
    ensures none { IfNone result (row_in rows.now at number ≡ None) }
{
    if stands_at(rows, guess, at, number) {
        Some(guess)
    } else {
        searched_row(rows, at, number)
    }
}

/// The row of a switch and number, which probably stands at this place.
#[inline(always)]
pub(crate) fn row(rows: &Rows, guess: usize, at: u16, number: u64) -> Option<&Row>
    requires { IsStrictlySortedBy row_cmp rows.now }
    ensures { option_map (λ r. r.now) result ≡ row_in rows.now at number }
{
    match row_said(rows, guess, at, number) {
        Some(row) => Some(row),
        None => row_by_search(rows, at, number),
    }
}

// The row of a switch and number, if it stands at a place.
#[inline(always)]
fn row_said(rows: &Rows, place: usize, at: u16, number: u64) -> Option<&Row>
    requires { IsStrictlySortedBy row_cmp rows.now }
    ensures { IfSome result (λ r. row_in rows.now at number ≡ Some r.now) }
{
    match rows.get(place) {
        Some(entry) => {
            if entry.at == at && entry.number == number {
                Some(entry.row)
            } else {
                None
            }
        }
        None => None,
    }
}

// The row of a switch and number, by a search.
#[inline(never)]
fn row_by_search(rows: &Rows, at: u16, number: u64) -> Option<&Row>
    requires { IsStrictlySortedBy row_cmp rows.now }
    ensures { option_map (λ r. r.now) result ≡ row_in rows.now at number }
{
    match searched_row(rows, at, number) {
        Some(place) => Some(rows.at(place).row),
        None => None,
    }
}

// Whether a next hop stands before that of a switch towards another.
fn hop_is_before(hop: &Hop, at: u16, target: u16) -> bool
    ensures { result ≡ is_before (λ (h : Hop). h.from) (λ (h : Hop). h.target) at target hop.now }
{
    hop.from < at || (hop.from == at && hop.target < target)
}

// How many next hops stand before that of a switch towards another.
fn hops_before(hops: &[Hop], at: u16, target: u16) -> usize
    requires { IsStrictlySortedBy hop_cmp hops.now }
    ensures { StandBefore (λ (h : Hop). h.from) (λ (h : Hop). h.target) at target hops.now result }
{
    hops.partition_point(|hop| hop_is_before(hop, at, target))
}

// The next hop that an entry says.
fn hop_said(hops: &[Hop], place: usize, at: u16, target: u16) -> u16
    ensures { result ≡ hop_said (slice_get hops.now place) at target }
{
    match hops.get(place) {
        Some(hop) => {
            if hop.from == at && hop.target == target {
                hop.next
            } else {
                at
            }
        }
        None => at,
    }
}

// The next hop of a switch towards another, by a search.
fn searched_hop(hops: &[Hop], at: u16, target: u16) -> u16
    requires { IsStrictlySortedBy hop_cmp hops.now }
    ensures { result ≡ hop_in hops.now at target }
{
    hop_said(hops, hops_before(hops, at, target), at, target)
}

// Where the next hop of a switch towards another stands among so many switches, if each has one towards each other.
fn hop_guess(switches: usize, at: u16, target: u16) -> usize {
    let others = switches.saturating_sub(1);
    let before = (at as usize).saturating_mul(others);
    let passed = if target < at {
        target
    } else {
        target.saturating_sub(1)
    };
    before.saturating_add(passed as usize)
}

// The next hop of a switch towards another, which probably stands at a place.
fn next_near(hops: &[Hop], guess: usize, at: u16, target: u16) -> u16
    requires { IsStrictlySortedBy hop_cmp hops.now }
    ensures { result ≡ hop_in hops.now at target }
{
    match hop_at(hops, guess, at, target) {
        Some(hop) => hop,
        None => searched_hop(hops, at, target),
    }
}

// The next hop of a switch towards another, if its entry stands at a place.
fn hop_at(hops: &[Hop], place: usize, at: u16, target: u16) -> Option<u16>
    requires { IsStrictlySortedBy hop_cmp hops.now }
    ensures { IfSome result (λ next. next ≡ hop_in hops.now at target) }
{
    match hops.get(place) {
        Some(hop) => {
            if hop.from == at && hop.target == target {
                Some(hop.next)
            } else {
                None
            }
        }
        None => None,
    }
}

/// The next hop of a switch towards another.
pub(crate) fn next(tables: &Tables, at: u16, target: u16) -> u16
    requires { IsWellFormed tables.now }
    ensures { result ≡ next tables.now at target }
{
    let guess = hop_guess(tables.switches.items().len(), at, target);
    next_near(tables.hops.items(), guess, at, target)
}

// How many ports are less than a number.
fn ports_before(ports: &[PortAt], number: u64) -> usize
    requires { IsStrictlySortedBy nat_cmp (map (λ (p : PortAt). p.port) ports.now) }
    ensures { IsPartitionPoint (λ (p : PortAt). nat_lt p.port number ≡ true) (λ (p : PortAt). nat_lt p.port number ≡ false) ports.now result }
{
    ports.partition_point(|entry| (entry.port as u64) < number)
}

// The port at a place, if it has this number.
fn port_said(ports: &[PortAt], place: usize, number: u64) -> Option<PortAt>
    ensures { result ≡ port_said (slice_get ports.now place) number }
{
    match ports.get(place) {
        Some(entry) => {
            if entry.port as u64 == number {
                Some(*entry)
            } else {
                None
            }
        }
        None => None,
    }
}

// The port of a number.
fn port(ports: &[PortAt], number: u64) -> Option<PortAt>
    requires { IsStrictlySortedBy nat_cmp (map (λ (p : PortAt). p.port) ports.now) }
    ensures at { option_map (λ (p : PortAt). p.at) result ≡ port_in ports.now number }
    ensures number { IfSome result (λ p. p.port ≡ number) }
{
    match port_said(ports, port_guess(number), number) {
        Some(entry) => Some(entry),
        None => port_said(ports, ports_before(ports, number), number),
    }
}

// Where the port of a number stands, if ports are numbered from 1 on.
fn port_guess(number: u64) -> usize {
    number.saturating_sub(1) as usize
}

/// The owner of a rank.
pub(crate) fn rank_at(arrays: &[ArrayAt], rank: u16) -> Option<u16>
    ensures { result ≡ rank_in arrays.now rank }
{
    for array in arrays {
        if array.rank == rank {
            return Some(array.at);
        }
    }
    None
}

/// The port that a packet's `outport` names.
pub(crate) fn out_port(ports: &[PortAt], packet: &Packet) -> Option<u32>
    requires ports { IsStrictlySortedBy nat_cmp (map (λ (p : PortAt). p.port) ports.now) }
    requires packet { 1 < length packet.now }
    ensures some { is_some result ≡ goes_out (map (λ (p : PortAt). p.port) ports.now) packet.now }
    ensures same { IfSome result (λ port. port ≡ slice_index packet.now 1) }
{
    match port(ports, packet.get(1)) {
        Some(entry) => Some(entry.port),
        None => None,
    }
}

// The number of ranks.
pub(crate) fn ranks(arrays: &[ArrayAt]) -> u16
    requires { All (λ (a : ArrayAt). a.rank < 64) arrays.now }
    ensures { result ≡ ranks_in arrays.now }
{
    let mut most = 0;
    for array in arrays {
        if most < array.rank + 1 {
            most = array.rank + 1;
        }
    }
    most
}
