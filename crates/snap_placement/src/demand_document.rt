//! The TOML document of a demand, and its shape.

ghost use Rattle.std.specs.Prelude.{◌≡◌, ◌≢◌, ◌==◌, IfOk, IfSome, MatchResult, Err, Ok, Some, None, codes, option_map};
ghost use Rattle.std.specs.List.Sorted.{IsStrictlySortedBy};
ghost use Rattle.std.specs.Map.{keys_of};
ghost use Rattle.std.specs.Ordering.{nat_cmp};
ghost use Rattle.std.specs.Cmp.Lexicographic.{slice_cmp};
ghost use Rattle.toml.specs.View.{items_view, table_view, view};
ghost use Rattle.toml.specs.Data.{get_member};
ghost use Rattle.snap_topology.specs.Spells.{document, member_count};
ghost use Rattle.snap_topology.specs.Listing.{texts};
ghost use Rattle.snap_placement.specs.DemandListing.{entry_text, spelled_by, vec_texts};
ghost use Rattle.snap_placement.specs.DemandShape.{entries_in, entries_listed, entry_of, flow_in, flows_in, flows_listed, has_keys, number_in, places_in, port_from, spelled};

use crate::demand::{DemandFault, Flow};
use crate::demand_listing::{AllowedAt, DemandListing};
use snap_core::names::is_name;
use snap_topology::document::{has_key, names_of, read_document};
use std::alloc::{AllocError, Global};
use toml::{Table, Value};

/// The document that the bytes are.
pub(crate) fn table_of(alloc: Global, text: &[u8]) -> Result<Table, DemandFault>
    ensures { MatchResult result (λ t. document text.now ≡ Some (table_view t))
        (λ e. e ≢ DemandFault.NoMemory → (e ≡ DemandFault.NotToml) × (document text.now ≡ None)) }
{
    match read_document(alloc, text)? {
        Some(table) => Ok(table),
        None => Err(DemandFault::NotToml),
    }
}

fn has_two(table: &Table) -> bool
    ensures { result ≡ (member_count (table_view table.now) == 2) }
{
    table.len() == 2
}

fn has_exact_keys(table: &Table) -> bool
    ensures { result ≡ has_keys (table_view table.now) }
{
    has_two(table) && has_key(table, "allowed") && has_key(table, "demand")
}

/// A number from 0 to 4294967295.
fn number_in(value: &Value) -> Option<u32>
    ensures { result ≡ number_in (view value.now) }
{
    let number = value.as_integer()?;
    u32::try_from(number).ok()
}

/// A number from 1 to 4294967295.
fn port_in(value: &Value) -> Option<u32>
    ensures { result ≡ port_from (number_in (view value.now)) }
{
    let number = number_in(value)?;
    if number == 0 { None } else { Some(number) }
}

/// The flow of an array of two ports and a weight.
fn flow_of(value: &Value) -> Option<Flow>
    ensures { result ≡ flow_in (view value.now) }
{
    let items = value.as_array()?.as_slice();
    if items.len() != 3 {
        return None;
    }
    let from = port_in(&items[0])?;
    let to = port_in(&items[1])?;
    let weight = number_in(&items[2])?;
    Some(Flow { from, to, weight })
}

/// The flows of an array of flows.
fn flows_of(alloc: Global, items: &[Value]) -> Result<Option<Vec<Flow>>, AllocError>
    ensures { IfOk result (λ r. option_map (λ flows. flows.items) r ≡ flows_listed (items_view items.now)) }
{
    let mut flows = Vec::new(alloc);
    for item in items {
        let Some(flow) = flow_of(item) else {
            return Ok(None);
        };
        flows.push(flow)?;
    }
    Ok(Some(flows))
}

fn flows_in_value(alloc: Global, value: &Value) -> Result<Option<Vec<Flow>>, AllocError>
    ensures { IfOk result (λ r. option_map (λ flows. flows.items) r ≡ flows_in (Some (view value.now))) }
{
    match value.as_array() {
        Some(items) => flows_of(alloc, items.as_slice()),
        None => Ok(None),
    }
}

fn flows_in_table(alloc: Global, table: &Table) -> Result<Option<Vec<Flow>>, AllocError>
    ensures { IfOk result (λ r. option_map (λ flows. flows.items) r ≡ flows_in (get_member (codes "demand") (table_view table.now))) }
{
    match table.get("demand") {
        Some(value) => flows_in_value(alloc, value),
        None => Ok(None),
    }
}

/// The names of an array of switch names.
fn places_in(alloc: Global, value: &Value) -> Result<Option<Vec<String>>, AllocError>
    ensures { IfOk result (λ r. option_map texts r ≡ places_in (view value.now)) }
{
    match value.as_array() {
        Some(items) => names_of(alloc, items.as_slice()),
        None => Ok(None),
    }
}

/// The entry of a name of a program and an array of switch names.
fn entry_of(alloc: Global, key: &str, value: &Value) -> Result<Option<AllowedAt>, AllocError>
    ensures { IfOk result (λ r. option_map entry_text r ≡ entry_of key.now (places_in (view value.now))) }
{
    let Some(places) = places_in(alloc, value)? else {
        return Ok(None);
    };
    if !is_name(key) {
        return Ok(None);
    }
    let name = String::from_str(alloc, key)?;
    Ok(Some(AllowedAt { name, places }))
}

/// The entries of a table from names of a program to arrays of switch names.
fn entries_of(alloc: Global, table: &Table) -> Result<Option<Vec<AllowedAt>>, AllocError>
    ensures entries { IfOk result (λ r. option_map vec_texts r ≡ entries_listed (table_view table.now)) }
    ensures order { IfOk result (λ r. IfSome r (λ v. IsStrictlySortedBy (slice_cmp nat_cmp) (keys_of (vec_texts v)))) }
{
    let mut entries = Vec::with_capacity(alloc, table.len())?;
    for (key, value) in table {
        let Some(entry) = entry_of(alloc, key.as_str(), value)? else {
            return Ok(None);
        };
        entries.push(entry)?;
    }
    Ok(Some(entries))
}

fn entries_in_value(alloc: Global, value: &Value) -> Result<Option<Vec<AllowedAt>>, AllocError>
    ensures entries { IfOk result (λ r. option_map vec_texts r ≡ entries_in (Some (view value.now))) }
    ensures order { IfOk result (λ r. IfSome r (λ v. IsStrictlySortedBy (slice_cmp nat_cmp) (keys_of (vec_texts v)))) }
{
    match value.as_table() {
        Some(table) => entries_of(alloc, table),
        None => Ok(None),
    }
}

fn entries_in_table(alloc: Global, table: &Table) -> Result<Option<Vec<AllowedAt>>, AllocError>
    ensures entries { IfOk result (λ r. option_map vec_texts r ≡ entries_in (get_member (codes "allowed") (table_view table.now))) }
    ensures order { IfOk result (λ r. IfSome r (λ v. IsStrictlySortedBy (slice_cmp nat_cmp) (keys_of (vec_texts v)))) }
{
    match table.get("allowed") {
        Some(value) => entries_in_value(alloc, value),
        None => Ok(None),
    }
}

/// What the document spells.
pub(crate) fn listing_of(alloc: Global, table: &Table) -> Result<DemandListing, DemandFault>
    ensures order { IfOk result (λ l. IsStrictlySortedBy (slice_cmp nat_cmp) (keys_of (vec_texts l.allowed))) }
    ensures spelled { MatchResult result (λ l. spelled (Some (table_view table.now)) ≡ Ok (spelled_by l))
        (λ e. e ≢ DemandFault.NoMemory → spelled (Some (table_view table.now)) ≡ Err e) }
{
    if !has_exact_keys(table) {
        return Err(DemandFault::Shape { rule: 1 });
    }
    let Some(flows) = flows_in_table(alloc, table)? else {
        return Err(DemandFault::Shape { rule: 2 });
    };
    let Some(allowed) = entries_in_table(alloc, table)? else {
        return Err(DemandFault::Shape { rule: 3 });
    };
    Ok(DemandListing { flows, allowed })
}
