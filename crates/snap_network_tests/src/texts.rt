//! Texts of worked tables of two switches with a port each.

use snap_core::NoMemory;
use snap_io::{File, MemoryShelf, MemorySink, have_distinct_names};
use snap_rows::valid::Valid;
use snap_tables::read::read;
use std::alloc::Global;

/// The first packet to come goes to port 1, later ones to port 2; the array stands at the second switch.
pub(crate) const FIRST_COME: &[u8] = b"snap-tables 1\n\
    field inport\n\
    field outport\n\
    switch a\n\
    switch b\n\
    array s 1\n\
    link 0 1\n\
    port 1 0\n\
    port 2 1\n\
    hop 0 1 1\n\
    hop 1 0 0\n\
    row 0 0 go 1\n\
    row 1 0 state 0 [#0] #0 1 2\n\
    row 1 1 leaf at 1 put 0 [#0] #1 out c1=#1\n\
    row 1 2 leaf out c1=#2\n\
    end\n";

/// The same with the array at the first switch.
pub(crate) const MOVED: &[u8] = b"snap-tables 1\n\
    field inport\n\
    field outport\n\
    switch a\n\
    switch b\n\
    array s 0\n\
    link 0 1\n\
    port 1 0\n\
    port 2 1\n\
    hop 0 1 1\n\
    hop 1 0 0\n\
    row 0 0 state 0 [#0] #0 1 2\n\
    row 0 1 leaf at 0 put 0 [#0] #1 out c1=#1\n\
    row 0 2 leaf out c1=#2\n\
    row 1 0 go 0\n\
    end\n";

/// `if s[0] = 0 then s[0]++ else id; if t[0] = 0 then outport <- 1 else outport <- 2`, s at a and t at b.
pub(crate) const TWO_OWNERS: &[u8] = b"snap-tables 2\n\
    field inport\n\
    field outport\n\
    switch a\n\
    switch b\n\
    array s 0 0\n\
    array t 1 1\n\
    link 0 1\n\
    port 1 0\n\
    port 2 1\n\
    hop 0 1 1\n\
    hop 1 0 0\n\
    row 0 0 state 0 [#0] #0 1 2\n\
    row 0 1 state 1 [#0] #0 3 4\n\
    row 0 2 state 1 [#0] #0 5 6\n\
    row 0 3 leaf add 0 [#0] 1 out c1=#1\n\
    row 0 4 leaf add 0 [#0] 1 out c1=#2\n\
    row 0 5 leaf out c1=#1\n\
    row 0 6 leaf out c1=#2\n\
    row 1 0 stop\n\
    row 1 1 state 1 [#0] #0 3 4\n\
    row 1 2 state 1 [#0] #0 5 6\n\
    row 1 3 leaf add 0 [#0] 1 out c1=#1\n\
    row 1 4 leaf add 0 [#0] 1 out c1=#2\n\
    row 1 5 leaf out c1=#1\n\
    row 1 6 leaf out c1=#2\n\
    end\n";

/// The same in version 1.
pub(crate) const TWO_OWNERS_1: &[u8] = b"snap-tables 1\n\
    field inport\n\
    field outport\n\
    switch a\n\
    switch b\n\
    array s 0\n\
    array t 1\n\
    link 0 1\n\
    port 1 0\n\
    port 2 1\n\
    hop 0 1 1\n\
    hop 1 0 0\n\
    row 0 0 state 0 [#0] #0 1 2\n\
    row 0 1 go 1\n\
    row 0 2 go 1\n\
    row 0 3 leaf at 0 add 0 [#0] 1 out c1=#1\n\
    row 0 4 leaf at 0 add 0 [#0] 1 out c1=#2\n\
    row 1 0 go 0\n\
    row 1 1 state 1 [#0] #0 3 4\n\
    row 1 2 state 1 [#0] #0 5 6\n\
    row 1 3 leaf at 0 add 0 [#0] 1 out c1=#1\n\
    row 1 4 leaf at 0 add 0 [#0] 1 out c1=#2\n\
    row 1 5 leaf out c1=#1\n\
    row 1 6 leaf out c1=#2\n\
    end\n";

/// Each packet goes to port 1, to 9, which is no port, and back to where it came in.
pub(crate) const THREE_WAYS: &[u8] = b"snap-tables 1\n\
    field inport\n\
    field outport\n\
    switch a\n\
    switch b\n\
    link 0 1\n\
    port 1 0\n\
    port 2 1\n\
    hop 0 1 1\n\
    hop 1 0 0\n\
    row 0 0 leaf out c1=#1 out c1=#9 out c1=c0\n\
    row 1 0 leaf out c1=#1 out c1=#9 out c1=c0\n\
    end\n";

/// Each packet leaves its `inport`; from port 1 it goes to port 1, from 2 to 9, which is no port, from 3 to 1, 2 and 9.
pub(crate) const PARTING: &[u8] = b"snap-tables 2\n\
    field inport\n\
    field outport\n\
    switch a\n\
    switch b\n\
    array s 1 0\n\
    link 0 1\n\
    port 1 0\n\
    port 2 0\n\
    port 3 1\n\
    hop 0 1 1\n\
    hop 1 0 0\n\
    row 0 0 value 0 1 1 2\n\
    row 0 1 stop\n\
    row 0 2 value 0 2 3 4\n\
    row 0 3 stop\n\
    row 0 4 stop\n\
    row 1 0 value 0 1 1 2\n\
    row 1 1 leaf put 0 [#0] c0 out c1=#1\n\
    row 1 2 value 0 2 3 4\n\
    row 1 3 leaf put 0 [#0] c0 out c1=#9\n\
    row 1 4 leaf put 0 [#0] c0 out c1=#1 out c1=#2 out c1=#9\n\
    end\n";

/// The tables of a text.
pub(crate) fn valid(alloc: Global, text: &[u8]) -> Result<Valid, NoMemory> {
    match read(alloc, text) {
        Ok(tables) => Ok(tables),
        Err(_) => Err(NoMemory),
    }
}

fn file(alloc: Global, name: &[u8], bytes: &[u8]) -> Result<File, NoMemory> {
    Ok(File {
        name: name.to_vec(alloc)?,
        bytes: bytes.to_vec(alloc)?,
    })
}

/// A shelf with a file `q` of packets and a file `s`, the schedule.
pub(crate) fn shelf(
    alloc: Global,
    packets: &[u8],
    schedule: &[u8],
) -> Result<MemoryShelf, NoMemory> {
    let mut files = Vec::new(alloc);
    files.push(file(alloc, b"q", packets)?)?;
    files.push(file(alloc, b"s", schedule)?)?;
    if !have_distinct_names(&files) {
        return Err(NoMemory);
    }
    MemoryShelf::new(files, Vec::new(alloc))
}

/// A sink that takes every write.
pub(crate) fn sink(alloc: Global) -> Result<MemorySink, NoMemory> {
    MemorySink::new(alloc, 4096, 4096, Vec::new(alloc))
}
