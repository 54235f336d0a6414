//! The end of a report: the places that aren't 0.

ghost use Rattle.std.specs.Prelude.{◌≡◌, ◌++◌, [], codes, slice_get, unwrap_or, OnOk};
ghost use Rattle.std.specs.List.{flat_map};
ghost use Rattle.snap_report.specs.Reports.{listed_line};
ghost use Rattle.snap_runs.specs.Reports.{PutsEnd, names_of};

use snap_core::NoMemory;
use snap_core::place::Listed;
use snap_net::net::Net;
use snap_report::report::put_place;
use snap_rows::lists::ArraysAt;

// For the lines of so many places room is taken together.
const TOGETHER: usize = 64;

/// Puts the end of a network's report behind the text. Refuses for memory alone.
pub fn put_end(out: &mut Vec<u8>, net: &Net) -> Result<(), NoMemory>
    ensures { OnOk result (PutsEnd net.now out.old.items out.new.items) }
{
    let entries = net.listing()?;
    put_rest(out, arrays_of(net), &entries)
}

fn arrays_of(net: &Net) -> &ArraysAt
    ensures { result.now ≡ net.now.tables.arrays }
{
    &net.tables().tables().arrays
}

// Puts the lines of places that aren't 0, and the last line.
fn put_rest(out: &mut Vec<u8>, arrays: &ArraysAt, entries: &[Listed<'_>]) -> Result<(), NoMemory>
    ensures { OnOk result (out.new.items ≡ out.old.items ++ (flat_map (listed_line (names_of arrays.now)) entries.now ++ codes "end\n")) }
{
    put_entries(out, arrays, entries)?;
    out.extend_from_slice(b"end\n")?;
    Ok(())
}

// Puts the lines of places that aren't 0.
fn put_entries(out: &mut Vec<u8>, arrays: &ArraysAt, entries: &[Listed<'_>]) -> Result<(), NoMemory>
    ensures { OnOk result (out.new.items ≡ out.old.items ++ flat_map (listed_line (names_of arrays.now)) entries.now) }
{
    for i in 0..entries.len() {
        if i % TOGETHER == 0 {
            make_room(out, &entries[i..])?;
        }
        put_entry(out, arrays, &entries[i])?;
    }
    Ok(())
}

// Takes room for the lines of the first of these places, about as much as their numbers want. Their order isn't that in
// which memory holds them: here their numbers are fetched side by side, where each line would wait for its own.
fn make_room(out: &mut Vec<u8>, entries: &[Listed<'_>]) -> Result<(), NoMemory>
    ensures { out.new.items ≡ out.old.items }
{
    let mut bits = 0;
    let mut numbers = 0usize;
    for entry in entries.iter().take(TOGETHER) {
        bits |= all_bits(entry.index);
        numbers = numbers.saturating_add(entry.index.len());
    }
    let digits = (64 - bits.leading_zeros()) / 3 + 2;
    out.reserve(numbers.saturating_mul(digits as usize))?;
    Ok(())
}

// The bits that some of these numbers have.
#[inline(always)]
fn all_bits(numbers: &[u64]) -> u64 {
    let mut bits = 0;
    for number in numbers {
        bits |= *number;
    }
    bits
}

// Puts the line of a place that isn't 0.
fn put_entry(out: &mut Vec<u8>, arrays: &ArraysAt, entry: &Listed<'_>) -> Result<(), NoMemory>
    ensures { OnOk result (out.new.items ≡ out.old.items ++ listed_line (names_of arrays.now) entry.now) }
{
    put_place(out, array_name(arrays, entry.var), entry.index, entry.value)
}

// The name of an array, or nothing where no array has this number.
fn array_name(arrays: &ArraysAt, var: u16) -> &[u8]
    ensures { result.now ≡ unwrap_or (slice_get (names_of arrays.now) var) [] }
{
    match arrays.items().get(var as usize) {
        Some(array) => array.name.items(),
        None => &[],
    }
}
