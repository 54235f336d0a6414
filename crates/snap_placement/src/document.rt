//! The TOML document of a placement, and its shape.

ghost use Rattle.std.specs.Prelude.{◌≡◌, ◌≢◌, Err, IfOk, IfSome, MatchResult, None, Ok, Some, option_map};
ghost use Rattle.toml.specs.View.{table_view};
ghost use Rattle.snap_topology.specs.Spells.{document};
ghost use Rattle.snap_placement.specs.Order.{InByteOrder};
ghost use Rattle.snap_placement.specs.Shape.{entries_in, entries_of, has_names};
ghost use Rattle.snap_placement.specs.Texts.{vec_texts};

use crate::placement::PlaceFault;
use snap_core::names::is_name;
use snap_topology::document::{read_document, switch_name};
use std::alloc::{AllocError, Global};
use toml::Table;

/// The document that the bytes are.
pub(crate) fn table_of(alloc: Global, text: &[u8]) -> Result<Table, PlaceFault>
    ensures { MatchResult result (λ t. document text.now ≡ Some (table_view t))
        (λ e. e ≢ PlaceFault.NoMemory → (e ≡ PlaceFault.NotToml) × (document text.now ≡ None)) }
{
    match read_document(alloc, text)? {
        Some(table) => Ok(table),
        None => Err(PlaceFault::NotToml),
    }
}

/// Whether each key is spelled like a name of a program.
fn has_names(table: &Table) -> bool
    ensures { result ≡ has_names (table_view table.now) }
{
    for (key, _value) in table {
        if !is_name(key.as_str()) {
            return false;
        }
    }
    true
}

/// The names with their switches, where each value is a switch name.
fn entries(alloc: Global, table: &Table) -> Result<Option<Vec<(String, String)>>, AllocError>
    ensures entries { IfOk result (λ r. option_map vec_texts r ≡ entries_in (table_view table.now)) }
    ensures order { IfOk result (λ r. IfSome r (λ v. InByteOrder (vec_texts v))) }
{
    let mut entries = Vec::with_capacity(alloc, table.len())?;
    for (key, value) in table {
        let Some(place) = switch_name(value) else {
            return Ok(None);
        };
        let name = String::from_str(alloc, key.as_str())?;
        let place = String::from_str(alloc, place)?;
        entries.push((name, place))?;
    }
    Ok(Some(entries))
}

/// The entries of a document of the right shape.
pub(crate) fn shaped(alloc: Global, table: &Table) -> Result<Vec<(String, String)>, PlaceFault>
    ensures order { IfOk result (λ v. InByteOrder (vec_texts v)) }
    ensures entries { MatchResult result (λ v. entries_of (Some (table_view table.now)) ≡ Ok (vec_texts v))
        (λ e. e ≢ PlaceFault.NoMemory → entries_of (Some (table_view table.now)) ≡ Err e) }
{
    if !has_names(table) {
        return Err(PlaceFault::Shape { rule: 1 });
    }
    match entries(alloc, table)? {
        Some(entries) => Ok(entries),
        None => Err(PlaceFault::Shape { rule: 2 }),
    }
}
