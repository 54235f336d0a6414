//! The numbers of the names in a listing, and its topology.

ghost use Rattle.std.specs.Prelude.{◌≡◌, ◌≢◌, ◌≤◌, ◌↔◌, ℕ, Err, Ok, Some, None, length, map, IfOk, IfErr, IsSomeAnd, MatchResult, OnOk, Contains, true, false};
ghost use Rattle.std.specs.List.{flat_map};
ghost use Rattle.std.specs.List.Sorted.{IsStrictlySortedBy};
ghost use Rattle.indexmap.specs.IndexSet.{index_set_len};
ghost use Rattle.snap_topology.specs.Answer.{AreKnown, IsAnswerFor, TellsUnknown, first_repeat, too_many};
ghost use Rattle.snap_topology.specs.Listing.{key_texts, linked, pair_text, port_texts, spelled_by, string_texts, texts};
ghost use Rattle.snap_core.specs.Ports.{link_cmp};
ghost use Rattle.snap_topology.specs.Spells.{is_switch, number_of, numbered, port_at, ends, port_name};

use crate::listing::TopologyListing;
use crate::topology::{MOST_LINKS, MOST_PORTS, MOST_SWITCHES, TopoFault, Topology};
use indexmap::IndexSet;
use snap_core::lists::{Name, Names};
use snap_core::ports::{Links, PortAt, Ports};
use snap_core::program::Which;
use std::alloc::{AllocError, Global};
use std::collections::BTreeMap;

fn name_of(alloc: Global, text: &str) -> Result<Name, AllocError>
    ensures { IfOk result (λ name. name ≡ text.now) }
{
    Ok(Name::new(Vec::from_slice(alloc, text.as_bytes())?))
}

/// Refuses a listing of too many switches, links or ports.
fn within_limits(listing: &TopologyListing<'_>) -> Result<(), TopoFault>
    ensures ok { OnOk result (too_many (spelled_by listing.now) ≡ None) }
    ensures limit { IfErr result (λ e. IsSomeAnd (too_many (spelled_by listing.now)) (λ many. e ≡ TopoFault.Limit many.0 many.1)) }
{
    let switches = listing.switches.as_slice().len();
    let links = listing.links.as_slice().len();
    let ports = listing.ports.len();
    if switches > MOST_SWITCHES {
        return Err(TopoFault::Limit {
            which: Which::Switches,
            count: switches as u64,
        });
    }
    if links > MOST_LINKS {
        return Err(TopoFault::Limit {
            which: Which::Links,
            count: links as u64,
        });
    }
    if ports > MOST_PORTS {
        return Err(TopoFault::Limit {
            which: Which::Ports,
            count: ports as u64,
        });
    }
    Ok(())
}

/// The switches by their names, each of which stands once.
fn numbers_of<'a>(alloc: Global, names: &'a [String]) -> Result<IndexSet<&'a str>, TopoFault>
    ensures ok { IfOk result (λ numbers. (first_repeat (string_texts names.now) ≡ None) × (key_texts numbers ≡ string_texts names.now)) }
    ensures twice { IfErr result (λ e. e ≢ TopoFault.NoMemory → IsSomeAnd (first_repeat (string_texts names.now)) (λ name. e ≡ TopoFault.Twice name)) }
{
    let mut numbers = IndexSet::with_capacity(alloc, names.len())?;
    for name in names {
        if numbers.contains(name.as_str()) {
            return Err(TopoFault::Twice {
                name: name_of(alloc, name.as_str())?,
            });
        }
        numbers.insert(name.as_str())?;
    }
    Ok(numbers)
}

/// The number of a switch.
fn number(alloc: Global, numbers: &IndexSet<&str>, name: &str) -> Result<u16, TopoFault>
    requires { index_set_len numbers.now ≤ MOST_SWITCHES }
    ensures ok { IfOk result (λ n. (is_switch (key_texts numbers.now) name.now ≡ true) × (n ≡ number_of (key_texts numbers.now) name.now)) }
    ensures unknown { IfErr result (λ e. e ≢ TopoFault.NoMemory → (is_switch (key_texts numbers.now) name.now ≡ false) × (e ≡ TopoFault.Unknown name.now)) }
{
    match numbers.get_index_of(name) {
        Some(i) => Ok(i as u16),
        None => Err(TopoFault::Unknown {
            name: name_of(alloc, name)?,
        }),
    }
}

/// A link by numbers, the lesser first.
fn link_of(
    alloc: Global,
    numbers: &IndexSet<&str>,
    link: &(&str, &str),
) -> Result<(u16, u16), TopoFault>
    requires { index_set_len numbers.now ≤ MOST_SWITCHES }
    ensures ok { IfOk result (λ pair. AreKnown (key_texts numbers.now) (ends (pair_text link.now)) × (pair ≡ numbered (key_texts numbers.now) (pair_text link.now))) }
    ensures unknown { IfErr result (λ e. e ≢ TopoFault.NoMemory → TellsUnknown (key_texts numbers.now) (ends (pair_text link.now)) e) }
{
    let a = number(alloc, numbers, link.0)?;
    let b = number(alloc, numbers, link.1)?;
    Ok((a.min(b), a.max(b)))
}

/// The links by numbers, as listed.
fn links_of(
    alloc: Global,
    numbers: &IndexSet<&str>,
    links: &[(&str, &str)],
) -> Result<Vec<(u16, u16)>, TopoFault>
    requires { index_set_len numbers.now ≤ MOST_SWITCHES }
    ensures ok { IfOk result (λ pairs. AreKnown (key_texts numbers.now) (flat_map ends (map pair_text links.now)) × (pairs.items ≡ map (numbered (key_texts numbers.now)) (map pair_text links.now))) }
    ensures unknown { IfErr result (λ e. e ≢ TopoFault.NoMemory → TellsUnknown (key_texts numbers.now) (flat_map ends (map pair_text links.now)) e) }
{
    let mut pairs = Vec::with_capacity(alloc, links.len())?;
    for link in links {
        pairs.push(link_of(alloc, numbers, link)?)?;
    }
    Ok(pairs)
}

/// The ports by numbers of their switches.
fn ports_of(
    alloc: Global,
    numbers: &IndexSet<&str>,
    ports: &BTreeMap<u32, &str>,
) -> Result<Vec<PortAt>, TopoFault>
    requires { index_set_len numbers.now ≤ MOST_SWITCHES }
    ensures ok { IfOk result (λ placed. AreKnown (key_texts numbers.now) (map port_name (port_texts ports.now)) × (placed.items ≡ map (port_at (key_texts numbers.now)) (port_texts ports.now))) }
    ensures unknown { IfErr result (λ e. e ≢ TopoFault.NoMemory → TellsUnknown (key_texts numbers.now) (map port_name (port_texts ports.now)) e) }
{
    let mut placed = Vec::new(alloc);
    for (port, name) in ports {
        let at = number(alloc, numbers, name)?;
        placed.push(PortAt { port: *port, at })?;
    }
    Ok(placed)
}

/// Each link once, in rising order.
fn once(mut links: Vec<(u16, u16)>) -> Vec<(u16, u16)>
    ensures rise { IsStrictlySortedBy link_cmp result.items }
    ensures same { (link : ℕ × ℕ) → Contains result.items link ↔ Contains links.items link }
    ensures fewer { length result.items ≤ length links.items }
{
    links.sort_unstable();
    links.dedup();
    links
}

// The names of switches.
fn switches_of(alloc: Global, names: Vec<String>) -> Result<Names, AllocError>
    ensures { IfOk result (λ switches. switches ≡ texts names) }
{
    let mut switches = Vec::with_capacity(alloc, names.len())?;
    for name in names {
        switches.push(Name::new(name.into_bytes()))?;
    }
    Ok(Names::new(switches))
}

// The links and the ports of a listing by numbers, or its first fault.
fn borders_of(alloc: Global, listing: &TopologyListing<'_>) -> Result<(Links, Ports), TopoFault>
    ensures few { IfOk result (λ borders. length borders.0 ≤ length (spelled_by listing.now).links) }
    ensures answer { MatchResult result (λ borders. IsAnswerFor (spelled_by listing.now) (Ok (linked listing.now borders)))
        (λ e. e ≢ TopoFault.NoMemory → IsAnswerFor (spelled_by listing.now) (Err e)) }
{
    within_limits(listing)?;
    let numbers = numbers_of(alloc, &listing.switches)?;
    let links = links_of(alloc, &numbers, &listing.links)?;
    let ports = ports_of(alloc, &numbers, &listing.ports)?;
    Ok((Links::new(once(links)), Ports::new(ports)))
}

/// The topology of a listing, or its first fault.
pub(crate) fn resolve(alloc: Global, listing: TopologyListing<'_>) -> Result<Topology, TopoFault>
    ensures few { IfOk result (λ t. length t.links ≤ length (spelled_by listing.entry).links) }
    ensures answer { MatchResult result (λ t. IsAnswerFor (spelled_by listing.entry) (Ok t))
        (λ e. e ≢ TopoFault.NoMemory → IsAnswerFor (spelled_by listing.entry) (Err e)) }
{
    let (links, ports) = borders_of(alloc, &listing)?;
    let switches = switches_of(alloc, listing.switches)?;
    Ok(Topology {
        switches,
        links,
        ports,
    })
}
