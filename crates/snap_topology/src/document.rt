//! The TOML document of a topology, and its shape.

ghost use Rattle.std.specs.Prelude.{◌≡◌, ◌≢◌, ◌==◌, is_some, IfOk, MatchResult, Err, Ok, Some, None, codes, option_map};
ghost use Rattle.std.specs.Option.{option_copied};
ghost use Rattle.toml.specs.View.{items_view, table_view, view};
ghost use Rattle.toml.specs.Data.{get_member};
ghost use Rattle.snap_topology.specs.Spells.{document, by_number, has_keys, member_count, port_number};
ghost use Rattle.snap_topology.specs.Listing.{pair_text, pair_texts, port_text, port_texts, spelled_by, texts};
ghost use Rattle.snap_topology.specs.Shape.{link_in, links_in, links_listed, name_in, names_in, port_of, ports_in, ports_listed, spelled, switches_in};

use crate::listing::TopologyListing;
use crate::names::port_of;
use crate::topology::TopoFault;
use snap_core::NoMemory;
use snap_core::names::is_switch_name;
use std::alloc::{AllocError, Global};
use std::collections::BTreeMap;
use toml::{Table, Value};

/// The document that the bytes are, or `None` where they are not UTF-8 or no TOML document.
/// Refuses for memory alone.
pub fn read_document(alloc: Global, text: &[u8]) -> Result<Option<Table>, NoMemory>
    ensures { IfOk result (λ r. option_map table_view r ≡ document text.now) }
{
    match toml::table_from_slice(alloc, text) {
        Ok(table) => Ok(Some(table)),
        Err(e) => {
            if e.is_memory() {
                Err(NoMemory)
            } else {
                Ok(None)
            }
        }
    }
}

/// The document that the bytes are.
pub(crate) fn table_of(alloc: Global, text: &[u8]) -> Result<Table, TopoFault>
    ensures { MatchResult result (λ t. document text.now ≡ Some (table_view t))
        (λ e. e ≢ TopoFault.NoMemory → (e ≡ TopoFault.NotToml) × (document text.now ≡ None)) }
{
    match read_document(alloc, text)? {
        Some(table) => Ok(table),
        None => Err(TopoFault::NotToml),
    }
}

/// Whether a table has a key.
pub fn has_key(table: &Table, key: &str) -> bool
    ensures { result ≡ is_some (get_member key.now (table_view table.now)) }
{
    table.contains_key(key)
}

fn has_three(table: &Table) -> bool
    ensures { result ≡ (member_count (table_view table.now) == 3) }
{
    table.len() == 3
}

fn has_exact_keys(table: &Table) -> bool
    ensures { result ≡ has_keys (table_view table.now) }
{
    has_three(table)
        && has_key(table, "links")
        && has_key(table, "ports")
        && has_key(table, "switches")
}

/// The text of a value that is a switch name. None where it is none.
pub fn switch_name(value: &Value) -> Option<&str>
    ensures { option_copied result ≡ name_in (view value.now) }
{
    let text = value.as_str()?;
    if is_switch_name(text.as_bytes()) {
        Some(text)
    } else {
        None
    }
}

/// The names of an array of switch names, or `None` where it is none. Refuses for memory alone.
pub fn names_of(alloc: Global, items: &[Value]) -> Result<Option<Vec<String>>, AllocError>
    ensures { IfOk result (λ r. option_map texts r ≡ names_in (items_view items.now)) }
{
    let mut names = Vec::with_capacity(alloc, items.len())?;
    for item in items {
        let Some(name) = switch_name(item) else {
            return Ok(None);
        };
        names.push(String::from_str(alloc, name)?)?;
    }
    Ok(Some(names))
}

/// The names in a value, where it is a non-empty array of switch names.
fn switches_in_value(alloc: Global, value: &Value) -> Result<Option<Vec<String>>, AllocError>
    ensures { IfOk result (λ r. option_map texts r ≡ switches_in (Some (view value.now))) }
{
    match value.as_array() {
        Some(items) => {
            if items.is_empty() {
                return Ok(None);
            }
            names_of(alloc, items.as_slice())
        }
        None => Ok(None),
    }
}

fn switches_of(alloc: Global, table: &Table) -> Result<Option<Vec<String>>, AllocError>
    ensures { IfOk result (λ r. option_map texts r ≡ switches_in (get_member (codes "switches") (table_view table.now))) }
{
    match table.get("switches") {
        Some(value) => switches_in_value(alloc, value),
        None => Ok(None),
    }
}

/// The two names of an array of two different switch names.
fn link_of(value: &Value) -> Option<(&str, &str)>
    ensures { option_map pair_text result ≡ link_in (view value.now) }
{
    let items = value.as_array()?.as_slice();
    if items.len() != 2 {
        return None;
    }
    let a = switch_name(&items[0])?;
    let b = switch_name(&items[1])?;
    if a == b { None } else { Some((a, b)) }
}

/// The links of an array of links.
fn links_of<'a>(
    alloc: Global,
    items: &'a [Value],
) -> Result<Option<Vec<(&'a str, &'a str)>>, AllocError>
    ensures { IfOk result (λ r. option_map pair_texts r ≡ links_listed (items_view items.now)) }
{
    let mut links = Vec::with_capacity(alloc, items.len())?;
    for item in items {
        let Some(link) = link_of(item) else {
            return Ok(None);
        };
        links.push(link)?;
    }
    Ok(Some(links))
}

fn links_in_value<'a>(
    alloc: Global,
    value: &'a Value,
) -> Result<Option<Vec<(&'a str, &'a str)>>, AllocError>
    ensures { IfOk result (λ r. option_map pair_texts r ≡ links_in (Some (view value.now))) }
{
    match value.as_array() {
        Some(items) => links_of(alloc, items.as_slice()),
        None => Ok(None),
    }
}

fn links_in_table<'a>(
    alloc: Global,
    table: &'a Table,
) -> Result<Option<Vec<(&'a str, &'a str)>>, AllocError>
    ensures { IfOk result (λ r. option_map pair_texts r ≡ links_in (get_member (codes "links") (table_view table.now))) }
{
    match table.get("links") {
        Some(value) => links_in_value(alloc, value),
        None => Ok(None),
    }
}

/// The port and the name of an entry of the table of ports.
fn port_entry<'a>(key: &str, value: &'a Value) -> Option<(u32, &'a str)>
    ensures { option_map port_text result ≡ port_of (port_number key.now) (name_in (view value.now)) }
{
    let port = port_of(key)?;
    let name = switch_name(value)?;
    Some((port, name))
}

/// The ports of a table from numbers of ports to switch names.
fn ports_of<'a>(
    alloc: Global,
    table: &'a Table,
) -> Result<Option<BTreeMap<u32, &'a str>>, AllocError>
    ensures { IfOk result (λ r. option_map port_texts r ≡ option_map by_number (ports_listed (table_view table.now))) }
{
    let mut ports = BTreeMap::new(alloc);
    for (key, value) in table {
        let Some((port, name)) = port_entry(key.as_str(), value) else {
            return Ok(None);
        };
        ports.insert(port, name)?;
    }
    Ok(Some(ports))
}

fn ports_in_value<'a>(
    alloc: Global,
    value: &'a Value,
) -> Result<Option<BTreeMap<u32, &'a str>>, AllocError>
    ensures { IfOk result (λ r. option_map port_texts r ≡ ports_in (Some (view value.now))) }
{
    match value.as_table() {
        Some(table) => ports_of(alloc, table),
        None => Ok(None),
    }
}

fn ports_in_table<'a>(
    alloc: Global,
    table: &'a Table,
) -> Result<Option<BTreeMap<u32, &'a str>>, AllocError>
    ensures { IfOk result (λ r. option_map port_texts r ≡ ports_in (get_member (codes "ports") (table_view table.now))) }
{
    match table.get("ports") {
        Some(value) => ports_in_value(alloc, value),
        None => Ok(None),
    }
}

/// What the document spells.
pub(crate) fn listing_of<'a>(
    alloc: Global,
    table: &'a Table,
) -> Result<TopologyListing<'a>, TopoFault>
    ensures { MatchResult result (λ l. spelled (Some (table_view table.now)) ≡ Ok (spelled_by l))
        (λ e. e ≢ TopoFault.NoMemory → spelled (Some (table_view table.now)) ≡ Err e) }
{
    if !has_exact_keys(table) {
        return Err(TopoFault::Shape { rule: 1 });
    }
    let Some(switches) = switches_of(alloc, table)? else {
        return Err(TopoFault::Shape { rule: 2 });
    };
    let Some(links) = links_in_table(alloc, table)? else {
        return Err(TopoFault::Shape { rule: 3 });
    };
    let Some(ports) = ports_in_table(alloc, table)? else {
        return Err(TopoFault::Shape { rule: 4 });
    };
    Ok(TopologyListing {
        switches,
        links,
        ports,
    })
}
