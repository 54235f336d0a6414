//! The switches of the variables, by number.

ghost use Rattle.std.specs.Prelude.{◌≡◌, ◌≢◌, ◌≤◌, ◌^◌, IfErr, IfOk, IsSomeAnd, None, OnOk, Some, length};
ghost use Rattle.std.specs.Option.{option_copied};
ghost use Rattle.snap_placement.specs.Answer.{Answers, IsAnswerFor, IsOwner, missing, no_switch, no_variable, owners, place_of};
ghost use Rattle.snap_placement.specs.Texts.{entry_texts};
ghost use Rattle.snap_placement.specs.Together.{TiedBy};

use crate::placement::PlaceFault;
use crate::together::together;
use snap_core::lists::Name;
use snap_dep::groups::Groups;
use snap_topology::names::is_among;
use std::alloc::{AllocError, Global};

fn name_of(alloc: Global, bytes: &[u8]) -> Result<Name, AllocError>
    ensures { IfOk result (λ name. name ≡ bytes.now) }
{
    Ok(Name::new(Vec::from_slice(alloc, bytes)?))
}

/// Refuses a placed name that is no variable.
fn known(alloc: Global, entries: &[(String, String)], arrays: &[Name]) -> Result<(), PlaceFault>
    ensures ok { OnOk result (no_variable arrays.now (entry_texts entries.now) ≡ None) }
    ensures unknown { IfErr result (λ e. e ≢ PlaceFault.NoMemory → IsSomeAnd (no_variable arrays.now (entry_texts entries.now)) (λ entry. e ≡ PlaceFault.NoVariable entry.0)) }
{
    for (name, _place) in entries {
        if !is_among(arrays, name.as_bytes()) {
            return Err(PlaceFault::NoVariable {
                name: name_of(alloc, name.as_bytes())?,
            });
        }
    }
    Ok(())
}

/// The switch name at which a variable is placed.
fn place_of<'a>(entries: &'a [(String, String)], name: &[u8]) -> Option<&'a [u8]>
    ensures { option_copied result ≡ place_of (entry_texts entries.now) name.now }
{
    for (var, place) in entries {
        if name == var.as_bytes() {
            return Some(place.as_bytes());
        }
    }
    None
}

/// Refuses a variable without a place.
fn placed(entries: &[(String, String)], arrays: &[Name]) -> Result<(), PlaceFault>
    requires { length arrays.now ≤ 64 }
    ensures ok { OnOk result (missing arrays.now (entry_texts entries.now) ≡ None) }
    ensures missing { IfErr result (λ e. IsSomeAnd (missing arrays.now (entry_texts entries.now)) (λ var. e ≡ PlaceFault.Missing var)) }
{
    for (var, name) in arrays.iter().enumerate() {
        if place_of(entries, name.items()).is_none() {
            return Err(PlaceFault::Missing { var: var as u16 });
        }
    }
    Ok(())
}

/// The number of a switch.
fn switch_number(switches: &[Name], name: &[u8]) -> Option<u16>
    requires { length switches.now ≤ 2 ^ 16 }
    ensures { IsOwner switches.now (Some name.now) result }
{
    for (at, switch) in switches.iter().enumerate() {
        if name == switch.items() {
            return Some(at as u16);
        }
    }
    None
}

/// The number of the switch at which a variable is placed.
fn owner(entries: &[(String, String)], switches: &[Name], name: &[u8]) -> Option<u16>
    requires { length switches.now ≤ 2 ^ 16 }
    ensures { IsOwner switches.now (place_of (entry_texts entries.now) name.now) result }
{
    match place_of(entries, name) {
        Some(place) => switch_number(switches, place),
        None => None,
    }
}

/// The number of each variable's switch.
fn owners(
    alloc: Global,
    entries: &[(String, String)],
    arrays: &[Name],
    switches: &[Name],
) -> Result<Vec<u16>, PlaceFault>
    requires arrays { length arrays.now ≤ 64 }
    requires switches { length switches.now ≤ 2 ^ 16 }
    ensures ok { IfOk result (λ owned. (no_switch arrays.now switches.now (entry_texts entries.now) ≡ None) × (owned.items ≡ owners arrays.now switches.now (entry_texts entries.now))) }
    ensures no_switch { IfErr result (λ e. e ≢ PlaceFault.NoMemory → IsSomeAnd (no_switch arrays.now switches.now (entry_texts entries.now)) (λ var. e ≡ PlaceFault.NoSwitch var)) }
{
    let mut owned = Vec::new(alloc);
    for (var, name) in arrays.iter().enumerate() {
        match owner(entries, switches, name.items()) {
            Some(at) => owned.push(at)?,
            None => return Err(PlaceFault::NoSwitch { var: var as u16 }),
        }
    }
    Ok(owned)
}

/// The switches of the variables, or the first fault.
pub(crate) fn resolve(
    alloc: Global,
    entries: &[(String, String)],
    arrays: &[Name],
    groups: &Groups,
    switches: &[Name],
) -> Result<Vec<u16>, PlaceFault>
    requires count { length groups.now.ranks ≡ length arrays.now }
    requires arrays { length arrays.now ≤ 64 }
    requires switches { length switches.now ≤ 2 ^ 16 }
    ensures { Answers (IsAnswerFor (TiedBy groups.now) arrays.now switches.now (entry_texts entries.now)) result }
{
    known(alloc, entries, arrays)?;
    placed(entries, arrays)?;
    let owned = owners(alloc, entries, arrays, switches)?;
    together(groups, owned.as_slice())?;
    Ok(owned)
}
