//! Which entry a line says, behind those of a draft.

ghost use Rattle.std.specs.Prelude.{◌≡◌, ◌≢◌, ◌++◌, ◌∷◌, [], length, IfOk, IfSome, MatchOption};
ghost use Rattle.snap_core.specs.Figures.{parts_by};
ghost use Rattle.snap_tables.specs.Drafts.{IsItem, IsKept, IsNoneBy, array_next, is_above_at, may_come, switch_next, tables_of};
ghost use Rattle.snap_tables.specs.declared.item.Item.TheVariants as item;
ghost use Rattle.snap_tables.specs.Entries.{array_fits, field_fits, hop_fits, is_above, is_field_at, is_plain_field, kept, link_fits, link_less, port_less};
ghost use Rattle.snap_tables.specs.Known.{AreKnown, AreSaid, IsBody, IsRowIn, row_next};
ghost use Rattle.snap_tables.specs.Lines.{with_item};
ghost use Rattle.snap_tables.specs.Reading.{Gives, field_said, hop_said, is_space, link_said, port_said};

use crate::draft::{TablesDraft, are_new, declared, is_new};
use crate::item::{Item, NextRow};
use crate::known::Known;
use crate::named::{array_said, field_said, switch_said};
use crate::piece::Counts;
use crate::taken::{hop_said, link_said, opened, port_said, take_below, take_u64};
use snap_core::NoMemory;
use snap_core::lists::Name;
use snap_core::ports::PortAt;
use snap_core::program::Field;
use snap_rows::lists::Rows;
use snap_rows::tables::{ArrayAt, Hop};
use std::alloc::Global;

fn is_plain_field(keyword: &[u8], name: &[u8], prefix: Option<u8>) -> bool
    ensures { result ≡ is_plain_field keyword.now (record { name = name.now; prefix = prefix }) }
{
    name == keyword && prefix.is_none()
}

// Whether a field may stand at a place: the first two are the ports'.
fn is_field_at(place: usize, name: &[u8], prefix: Option<u8>) -> bool
    ensures { result ≡ is_field_at place (record { name = name.now; prefix = prefix }) }
{
    if place == 0 {
        return is_plain_field(b"inport", name, prefix);
    }
    if place == 1 {
        return is_plain_field(b"outport", name, prefix);
    }
    true
}

// The field that a line says, where it may come.
fn field_of(alloc: Global, draft: &TablesDraft, line: &[u8]) -> Result<Option<Field>, NoMemory>
    requires { IsKept draft.now }
    ensures { IfOk result (λ said. said ≡ kept (may_come (tables_of draft.now) 1) (field_fits draft.now.fields.items) (field_said (parts_by is_space line.now))) }
{
    if !draft.may_come(1) {
        return Ok(None);
    }
    let Some((name, prefix)) = field_said(line) else {
        return Ok(None);
    };
    if !is_field_at(draft.fields.len(), name, prefix) {
        return Ok(None);
    }
    let names = declared(alloc, name, prefix)?;
    if !are_new(&draft.names, &names) {
        return Ok(None);
    }
    Ok(Some(Field {
        name: Name::of(alloc, name)?,
        prefix,
    }))
}

fn next_field(alloc: Global, draft: &TablesDraft, line: &[u8]) -> Result<Option<Item>, NoMemory>
    requires { IsKept draft.now }
    ensures { IfOk result (λ said. MatchOption said (IsNoneBy 102 (tables_of draft.now) line.now) (IsItem (tables_of draft.now) line.now)) }
{
    match field_of(alloc, draft, line)? {
        None => Ok(None),
        Some(field) => Ok(Some(Item::Field(field))),
    }
}

// The switch that a line says, where it may come.
fn switch_of<'a>(draft: &TablesDraft, line: &'a [u8]) -> Option<&'a [u8]>
    requires { IsKept draft.now }
    ensures { Gives result (switch_next draft.now (parts_by is_space line.now)) (λ name. name.now) }
{
    if !draft.may_come(2) {
        return None;
    }
    let name = switch_said(line)?;
    if is_new(&draft.switches, name) {
        Some(name)
    } else {
        None
    }
}

fn next_switch(alloc: Global, draft: &TablesDraft, line: &[u8]) -> Result<Option<Item>, NoMemory>
    requires { IsKept draft.now }
    ensures { IfOk result (λ said. MatchOption said (IsNoneBy 115 (tables_of draft.now) line.now) (IsItem (tables_of draft.now) line.now)) }
{
    match switch_of(draft, line) {
        None => Ok(None),
        Some(name) => Ok(Some(Item::Switch(Name::of(alloc, name)?))),
    }
}

// Whether no array has this name.
fn is_new_array(arrays: &[ArrayAt], name: &[u8], at: u16, rank: u16) -> bool
    ensures { result ≡ array_fits arrays.now (record { name = name.now; at = at; rank = rank }) }
{
    let mut rest = arrays;
    while let Some((array, more)) = rest.split_first() {
        if name == array.name.items() {
            return false;
        }
        rest = more;
    }
    true
}

// The array that a line says, where it may come.
fn array_of<'a>(draft: &TablesDraft, line: &'a [u8]) -> Option<(&'a [u8], u16, u16)>
    requires { IsKept draft.now }
    ensures { Gives result (array_next draft.now (parts_by is_space line.now)) (λ a. record { name = a.0.now; at = a.1; rank = a.2 }) }
{
    if !draft.may_come(3) {
        return None;
    }
    let (name, at, rank) = array_said(draft.version, draft.switch_count(), line)?;
    if is_new_array(&draft.arrays, name, at, rank) {
        Some((name, at, rank))
    } else {
        None
    }
}

fn next_array(alloc: Global, draft: &TablesDraft, line: &[u8]) -> Result<Option<Item>, NoMemory>
    requires { IsKept draft.now }
    ensures { IfOk result (λ said. MatchOption said (IsNoneBy 97 (tables_of draft.now) line.now) (IsItem (tables_of draft.now) line.now)) }
{
    match array_of(draft, line) {
        None => Ok(None),
        Some((name, at, rank)) => {
            let name = Name::of(alloc, name)?;
            Ok(Some(Item::Array(ArrayAt { name, at, rank })))
        }
    }
}

fn link_less(a: (u16, u16), b: (u16, u16)) -> bool
    ensures { result ≡ link_less a b }
{
    a.0.cmp(&b.0).then(a.1.cmp(&b.1)).is_lt()
}

fn is_above_links(links: &[(u16, u16)], link: (u16, u16)) -> bool
    ensures { result ≡ is_above link_less links.now link }
{
    match links.last() {
        None => true,
        Some(last) => link_less(*last, link),
    }
}

// The link that a line says, where it may come.
fn link_of(draft: &TablesDraft, line: &[u8]) -> Option<(u16, u16)>
    requires { IsKept draft.now }
    ensures { result ≡ kept (may_come (tables_of draft.now) 4) (link_fits draft.now.links.items) (link_said (length draft.now.switches.items) (parts_by is_space line.now)) }
{
    if !draft.may_come(4) {
        return None;
    }
    let link = link_said(draft.switch_count(), line)?;
    if link.0 < link.1 && is_above_links(&draft.links, link) {
        Some(link)
    } else {
        None
    }
}

fn next_link(draft: &TablesDraft, line: &[u8]) -> Option<Item>
    requires { IsKept draft.now }
    ensures { MatchOption result (IsNoneBy 108 (tables_of draft.now) line.now) (IsItem (tables_of draft.now) line.now) }
{
    match link_of(draft, line) {
        None => None,
        Some(link) => Some(Item::Link(link)),
    }
}

fn is_above_ports(ports: &[PortAt], port: PortAt) -> bool
    ensures { result ≡ is_above port_less ports.now port }
{
    match ports.last() {
        None => true,
        Some(last) => last.port.cmp(&port.port).is_lt(),
    }
}

// The port that a line says, where it may come.
fn port_of(draft: &TablesDraft, line: &[u8]) -> Option<PortAt>
    requires { IsKept draft.now }
    ensures { result ≡ kept (may_come (tables_of draft.now) 5) (is_above port_less draft.now.ports.items) (port_said (length draft.now.switches.items) (parts_by is_space line.now)) }
{
    if !draft.may_come(5) {
        return None;
    }
    let port = port_said(draft.switch_count(), line)?;
    if is_above_ports(&draft.ports, port) {
        Some(port)
    } else {
        None
    }
}

fn next_port(draft: &TablesDraft, line: &[u8]) -> Option<Item>
    requires { IsKept draft.now }
    ensures { MatchOption result (IsNoneBy 112 (tables_of draft.now) line.now) (IsItem (tables_of draft.now) line.now) }
{
    match port_of(draft, line) {
        None => None,
        Some(port) => Some(Item::Port(port)),
    }
}

// Whether it is the turn of a next hop's pair.
fn is_due(draft: &TablesDraft, hop: Hop) -> bool
    requires { IsKept draft.now }
    ensures { result ≡ hop_fits (length draft.now.switches.items) draft.now.hops.items hop }
{
    let due_pair = draft.due_pair();
    u32::from(hop.from) == due_pair.0 && u32::from(hop.target) == due_pair.1
}

// The next hop that a line says, where it may come.
fn hop_of(draft: &TablesDraft, line: &[u8]) -> Option<Hop>
    requires { IsKept draft.now }
    ensures { result ≡ kept (may_come (tables_of draft.now) 6) (hop_fits (length draft.now.switches.items) draft.now.hops.items) (hop_said (length draft.now.switches.items) (parts_by is_space line.now)) }
{
    if !draft.may_come(6) {
        return None;
    }
    let hop = hop_said(draft.switch_count(), line)?;
    if is_due(draft, hop) { Some(hop) } else { None }
}

/// The next hop that a line says, if it is of its form after the lines before it.
pub(crate) fn next_hop(draft: &TablesDraft, line: &[u8]) -> Option<Hop>
    requires { IsKept draft.now }
    ensures { MatchOption result (IsNoneBy 104 (tables_of draft.now) line.now) (λ hop. IsItem (tables_of draft.now) line.now (item.Hop hop)) }
{
    hop_of(draft, line)
}

// Whether a row of this switch and number stands behind these rows.
fn is_above_rows(rows: &Rows, at: u16, number: u64) -> bool
    ensures { result ≡ is_above_at rows.now at number }
{
    match rows.get(rows.len().saturating_sub(1)) {
        None => true,
        Some(last) => last.at.cmp(&at).then(last.number.cmp(&number)).is_lt(),
    }
}

// The row that a line says, behind those of a draft.
fn row_line<'a>(
    alloc: Global,
    draft: &TablesDraft,
    counts: Counts,
    known: &mut Known<'a>,
    line: &'a [u8],
) -> Result<Option<NextRow>, NoMemory>
    requires { AreSaid draft.now.version counts draft.now.arrays.items draft.now.rows known.old.rows.items }
    ensures known { IfOk result (λ said. IfSome said (λ row. AreSaid draft.now.version counts draft.now.arrays.items (draft.now.rows ++ row_next draft.now.rows row ∷ []) known.new.rows.items)) }
    ensures placed { IfOk result (λ said. IfSome said (λ row. IsBody draft.now.rows row.body)) }
    ensures line { IfOk result (IsRowIn draft.now counts line.now) }
{
    let Some(rest) = opened(b"row", Some(line)) else {
        return Ok(None);
    };
    let Some((at, rest)) = take_below(counts.switches, rest) else {
        return Ok(None);
    };
    let Some((number, rest)) = take_u64(rest) else {
        return Ok(None);
    };
    if !is_above_rows(&draft.rows, at, number) {
        return Ok(None);
    }
    match known.body_of(alloc, draft, counts, number, rest)? {
        None => Ok(None),
        Some(body) => Ok(Some(NextRow { at, number, body })),
    }
}

/// The row that a line says, if it is of its form after the lines before it.
pub(crate) fn next_row<'a>(
    alloc: Global,
    draft: &TablesDraft,
    known: &mut Known<'a>,
    line: &'a [u8],
) -> Result<Option<NextRow>, NoMemory>
    requires kept { IsKept draft.now }
    requires known { AreKnown (tables_of draft.now) known.old.rows.items }
    ensures known { IfOk result (λ said. IfSome said (λ row. AreKnown (with_item (tables_of draft.now) (item.Row (row_next draft.now.rows row))) known.new.rows.items)) }
    ensures placed { IfOk result (λ said. IfSome said (λ row. IsBody draft.now.rows row.body)) }
    ensures line { IfOk result (λ said. MatchOption said (IsNoneBy 114 (tables_of draft.now) line.now) (λ row. IsItem (tables_of draft.now) line.now (item.Row (row_next draft.now.rows row)))) }
{
    if !draft.may_come(7) {
        return Ok(None);
    }
    row_line(alloc, draft, draft.counts(), known, line)
}

// The link or port that a line says.
fn next_listed(draft: &TablesDraft, first: u8, line: &[u8]) -> Option<Item>
    requires kept { IsKept draft.now }
    requires field { first ≢ 102 }
    requires switch { first ≢ 115 }
    requires array { first ≢ 97 }
    requires hop { first ≢ 104 }
    requires row { first ≢ 114 }
    ensures { MatchOption result (IsNoneBy first (tables_of draft.now) line.now) (IsItem (tables_of draft.now) line.now) }
{
    if first == b'l' {
        return next_link(draft, line);
    }
    if first == b'p' {
        return next_port(draft, line);
    }
    None
}

/// The entry that a line with this first byte says, if it is of its form after the lines before it. Next hops and rows,
/// which are many, have functions of their own.
pub(crate) fn next_item(
    alloc: Global,
    draft: &TablesDraft,
    first: u8,
    line: &[u8],
) -> Result<Option<Item>, NoMemory>
    requires kept { IsKept draft.now }
    requires hop { first ≢ 104 }
    requires row { first ≢ 114 }
    ensures { IfOk result (λ said. MatchOption said (IsNoneBy first (tables_of draft.now) line.now) (IsItem (tables_of draft.now) line.now)) }
{
    if first == b'f' {
        return next_field(alloc, draft, line);
    }
    if first == b's' {
        return next_switch(alloc, draft, line);
    }
    if first == b'a' {
        return next_array(alloc, draft, line);
    }
    Ok(next_listed(draft, first, line))
}
