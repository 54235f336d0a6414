//! The text of a summary.

ghost use Rattle.std.specs.Prelude.{◌≡◌, ◌++◌, ◌<◌, IfOk, OnOk};
ghost use Rattle.snap_demo.specs.Summary.{line, part_in, text_of, total_in};

use crate::counts::PacketCounts;
use snap_core::NoMemory;
use snap_core::place::Entry;
use snap_report::report::put_number;
use std::alloc::Global;

/// The sum of the numbers of an array. One that 64 bits don't hold is want of memory.
pub(crate) fn total_in(var: u16, entries: &[Entry]) -> Result<u64, NoMemory>
    ensures { IfOk result (λ total. total ≡ total_in var entries.now) }
{
    let mut total: u64 = 0;
    for entry in entries {
        total = total.checked_add(part_in(var, entry)).ok_or(NoMemory)?;
    }
    Ok(total)
}

// The number of an entry, where it is one of the array.
fn part_in(var: u16, entry: &Entry) -> u64
    ensures { result ≡ part_in var entry.now }
{
    if entry.place.var == var {
        entry.value
    } else {
        0
    }
}

/// The text of these numbers.
pub(crate) fn text_of(
    alloc: Global,
    switches: u16,
    packets: u64,
    counts: &PacketCounts,
    seen: u64,
    count: u64,
) -> Result<Vec<u8>, NoMemory>
    ensures { IfOk result (λ text. text.items ≡ text_of switches packets counts.now.delivered counts.now.lost seen count) }
{
    let mut text = Vec::new(alloc);
    put_line(&mut text, b"demo", switches as u64)?;
    put_line(&mut text, b"switches", switches as u64)?;
    put_line(&mut text, b"packets", packets)?;
    put_line(&mut text, b"delivered", counts.delivered)?;
    put_line(&mut text, b"lost", counts.lost)?;
    put_line(&mut text, b"sum seen", seen)?;
    put_line(&mut text, b"sum count", count)?;
    text.extend_from_slice(b"end\n")?;
    Ok(text)
}

fn put_line(out: &mut Vec<u8>, name: &[u8], number: u64) -> Result<(), NoMemory>
    ensures { OnOk result (out.new.items ≡ out.old.items ++ line name.now number) }
{
    out.extend_from_slice(name)?;
    out.push(b' ')?;
    put_number(out, number)?;
    out.push(b'\n')?;
    Ok(())
}
