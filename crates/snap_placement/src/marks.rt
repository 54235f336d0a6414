//! Where arrays may stand, as marks of switches.

ghost use Rattle.std.specs.Prelude.{◌≡◌, ◌≢◌, ◌==◌, ◌<◌, ◌≤◌, ◌^◌, ℕ, Err, IfErr, IfOk, MatchBool, None, Some, [], false, true, length, option_map, slice_index_or};
ghost use Rattle.std.specs.List.{IsDistinct, list_any};
ghost use Rattle.std.specs.Str.{bytes_eq};
ghost use Rattle.snap_topology.specs.Listing.{string_texts};
ghost use Rattle.snap_topology.specs.Spells.{number_of};
ghost use Rattle.snap_placement.specs.DemandAnswer.{Lists, TellsNowhere, entry_for, may, no_switch, IsNumber, KnowsAll, Tells, names_for};
ghost use Rattle.snap_placement.specs.DemandListing.{entry_texts, key_texts};
ghost use Rattle.snap_placement.specs.Marks.{GroupMarked, AreMarks};

use crate::demand::{DemandFault, Switches};
use crate::demand_listing::AllowedAt;
use indexmap::IndexSet;
use snap_core::NoMemory;
use snap_core::lists::Name;
use snap_dep::groups::Groups;
use std::alloc::Global;
use std::marker::Model;

/// For each switch whether an array may stand there.
#[derive(Drop)]
pub(crate) struct Marks {
    marks: Vec<bool>,
}

impl Model for Marks {
    ghost use Rattle.std.specs.Prelude.{Bool, List};

    ghost Value = { List Bool };

    ghost view = { λ a. a.marks.items };
}

impl Marks {
    fn new(marks: Vec<bool>) -> Marks
        ensures { result ≡ marks.items }
    {
        Marks { marks }
    }

    fn at(&self, switch: usize) -> bool
        requires { switch < length self.now }
        ensures { result ≡ slice_index_or self.now switch false }
    {
        self.marks[switch]
    }
}

/// The switches by their names, which differ.
pub(crate) fn numbers_of(alloc: Global, switches: &[Name]) -> Result<IndexSet<Vec<u8>>, NoMemory>
    requires { IsDistinct bytes_eq switches.now }
    ensures { IfOk result (λ numbers. key_texts numbers.keys ≡ switches.now) }
{
    let mut numbers = IndexSet::new(alloc);
    for switch in switches {
        numbers.insert(Vec::from_slice(alloc, switch.items())?)?;
    }
    Ok(numbers)
}

/// The number of a switch.
fn number(numbers: &IndexSet<Vec<u8>>, name: &[u8]) -> Option<usize>
    ensures { IsNumber (key_texts numbers.now.keys) name.now result }
{
    numbers.get_index_of(name)
}

/// Marks the switches of some names.
fn marked(
    alloc: Global,
    numbers: &IndexSet<Vec<u8>>,
    names: &[String],
    count: usize,
) -> Result<Vec<bool>, DemandFault>
    requires { length (key_texts numbers.now.keys) ≡ count }
    ensures count { IfOk result (λ marks. length marks.items ≡ count) }
    ensures marks { IfOk result (λ marks. (at : ℕ) → at < count → slice_index_or marks.items at false ≡ list_any (λ name. number_of (key_texts numbers.now.keys) name == at) (string_texts names.now)) }
    ensures fault { KnowsAll (key_texts numbers.now.keys) (string_texts names.now) result }
{
    let mut marks = vec![in alloc; false; count]?;
    for name in names {
        let Some(at) = number(numbers, name.as_bytes()) else {
            return Err(DemandFault::NoSwitch {
                name: Name::of(alloc, name.as_bytes())?,
            });
        };
        marks[at] = true;
    }
    Ok(marks)
}

/// The switch names of an array's entry.
fn entry_for<'a>(entries: &'a [AllowedAt], name: &[u8]) -> Option<&'a [String]>
    ensures { option_map (λ names. string_texts names.now) result ≡ entry_for (entry_texts entries.now) name.now }
{
    for entry in entries {
        if name == entry.name.as_bytes() {
            return Some(entry.places.as_slice());
        }
    }
    None
}

/// Marks where an array may stand.
fn marks_for(
    alloc: Global,
    numbers: &IndexSet<Vec<u8>>,
    entries: &[AllowedAt],
    name: &[u8],
    count: usize,
) -> Result<Vec<bool>, DemandFault>
    requires { length (key_texts numbers.now.keys) ≡ count }
    ensures count { IfOk result (λ marks. length marks.items ≡ count) }
    ensures marks { IfOk result (λ marks. (at : ℕ) → at < count → slice_index_or marks.items at false ≡ may (key_texts numbers.now.keys) (entry_texts entries.now) name.now at) }
    ensures fault { KnowsAll (key_texts numbers.now.keys) (names_for (entry_texts entries.now) name.now) result }
{
    match entry_for(entries, name) {
        Some(names) => marked(alloc, numbers, names, count),
        None => Ok(vec![in alloc; true; count]?),
    }
}

/// Marks where each array may stand.
pub(crate) fn all_marks(
    alloc: Global,
    numbers: &IndexSet<Vec<u8>>,
    entries: &[AllowedAt],
    arrays: &[Name],
    count: usize,
) -> Result<Vec<Marks>, DemandFault>
    requires { length (key_texts numbers.now.keys) ≡ count }
    ensures count { IfOk result (λ marks. length marks.items ≡ length arrays.now) }
    ensures widths { IfOk result (λ marks. (v : ℕ) → v < length arrays.now → length (slice_index_or marks.items v []) ≡ count) }
    ensures marks { IfOk result (λ marks. AreMarks count (key_texts numbers.now.keys) arrays.now (entry_texts entries.now) marks.items) }
    ensures fault { Tells (no_switch (key_texts numbers.now.keys) arrays.now (entry_texts entries.now)) result }
{
    let mut marks = Vec::new(alloc);
    for name in arrays {
        marks.push(Marks::new(marks_for(alloc, numbers, entries, name.items(), count)?))?;
    }
    Ok(marks)
}

/// Whether the group of a variable may stand at a switch.
fn may_stand(groups: &Groups, marks: &[Marks], var: usize, at: usize) -> bool
    requires count { length marks.now ≡ length groups.now.ranks }
    requires var { var < length marks.now }
    requires few { length marks.now ≤ 64 }
    requires widths { (v : ℕ) → v < length marks.now → at < length (slice_index_or marks.now v []) }
    ensures { MatchBool result (GroupMarked groups.now marks.now var at) (¬ (GroupMarked groups.now marks.now var at)) }
{
    for other in 0..marks.len() {
        if groups.tied(other as u16, var as u16) && !marks[other].at(at) {
            return false;
        }
    }
    true
}

/// The switches at which the group of a variable may stand.
pub(crate) fn places(
    alloc: Global,
    groups: &Groups,
    marks: &[Marks],
    var: usize,
    count: usize,
) -> Result<Vec<u16>, NoMemory>
    requires count { length marks.now ≡ length groups.now.ranks }
    requires var { var < length marks.now }
    requires few { length marks.now ≤ 64 }
    requires switches { count ≤ 2 ^ 16 }
    requires widths { (v : ℕ) → v < length marks.now → length (slice_index_or marks.now v []) ≡ count }
    ensures { IfOk result (λ places. Lists (GroupMarked groups.now marks.now var) count places.items) }
{
    let mut places = Vec::new(alloc);
    for at in 0..count {
        if may_stand(groups, marks, var, at) {
            places.push(at as u16)?;
        }
    }
    Ok(places)
}

/// The switches at which the group of each variable may stand, of which there are at most 64.
pub(crate) fn all_places(
    alloc: Global,
    groups: &Groups,
    marks: &[Marks],
    count: usize,
) -> Result<Vec<Switches>, DemandFault>
    requires count { length marks.now ≡ length groups.now.ranks }
    requires switches { count ≤ 2 ^ 16 }
    requires widths { (v : ℕ) → v < length marks.now → length (slice_index_or marks.now v []) ≡ count }
    ensures count { IfOk result (λ all. length all.items ≡ length marks.now) }
    ensures places { IfOk result (λ all. (v : ℕ) → v < length marks.now → Lists (GroupMarked groups.now marks.now v) count (slice_index_or all.items v [])) }
    ensures some { IfOk result (λ all. (v : ℕ) → v < length marks.now → slice_index_or all.items v [] ≢ []) }
    ensures nowhere { IfErr result (λ e. e ≢ DemandFault.NoMemory → TellsNowhere (GroupMarked groups.now marks.now) (length marks.now) count e) }
{
    let mut all = Vec::new(alloc);
    for var in 0..groups.count() {
        let places = places(alloc, groups, marks, var, count)?;
        if places.is_empty() {
            return Err(DemandFault::Nowhere { var: var as u16 });
        }
        all.push(Switches::new(places))?;
    }
    Ok(all)
}
