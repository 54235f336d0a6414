use crate::texts::{FIRST_COME, MOVED, TWO_OWNERS, TWO_OWNERS_1, valid};
use snap_core::NoMemory;
use snap_io::MemorySink;
use snap_rows::valid::{Valid, single_owner};
use snap_tables::fault::{PrintFault, TablesFault};
use snap_tables::print::print;
use snap_tables::read::read;
use std::alloc::Global;
use std::test::Fail;

// Why the tables of a text aren't written.
fn print_fault(
    alloc: Global,
    text: &[u8],
    sink: &mut MemorySink,
) -> Result<Option<PrintFault>, NoMemory> {
    let tables = valid(alloc, text)?;
    Ok(print(alloc, &tables, sink).err())
}

#[test]
fn a_refused_write_leaves_the_bytes_before_it(rt: HostRuntime) -> Result<(), Fail> {
    let alloc = rt.alloc();
    let mut sink = MemorySink::new(alloc, 4096, 1, vec![in alloc; 10u64]?)?;
    let fault = print_fault(alloc, FIRST_COME, &mut sink)?;
    assert!(rt; fault == Some(PrintFault::Write));
    assert!(rt; sink.bytes() == b"snap-table".as_slice());
    Ok(())
}

// One leaf, and an array that it leaves alone.
const CONSTANT_EGRESS: &[u8] =
    b"snap-tables 2\nfield inport\nfield outport\nfield f\nfield g\nfield h\nswitch a\narray s 0 0\nport 1 0\nport 2 0\nrow 0 0 leaf out c1=#2\nend\n";

// The text of tables.
fn text_of(alloc: Global, tables: &Valid) -> Result<Vec<u8>, Fail> {
    let mut sink = MemorySink::new(alloc, 4096, 1, Vec::new(alloc))?;
    print(alloc, tables, &mut sink)?;
    Ok(sink.bytes().to_vec(alloc)?)
}

// Whether tables are single-owner that are written as this text.
fn single_owner_as(alloc: Global, tables: &Valid, text: &[u8]) -> Result<Option<bool>, Fail> {
    let written = text_of(alloc, tables)?;
    if written.as_slice() == text {
        Ok(Some(single_owner(tables)))
    } else {
        Ok(None)
    }
}

// Whether tables are single-owner whose text is read, and written as it was.
fn is_single_owner(alloc: Global, text: &[u8]) -> Result<Option<bool>, Fail> {
    let tables = valid(alloc, text)?;
    single_owner_as(alloc, &tables, text)
}

// Texts, and whether their tables are single-owner.
const LONE: [(&[u8], bool); 5] = [
    (FIRST_COME, true),
    (TWO_OWNERS, false),
    (TWO_OWNERS_1, false),
    (MOVED, true),
    (CONSTANT_EGRESS, true),
];

#[test]
fn tables_are_read_back(rt: HostRuntime) -> Result<(), Fail> {
    for (text, single_owner) in LONE {
        assert!(rt;
            is_single_owner(rt.alloc(), text)? == Some(single_owner),
            "{text:?}"
        );
    }
    Ok(())
}

// The line that is refused.
fn bad_line(alloc: Global, text: &[u8]) -> u64 {
    match read(alloc, text) {
        Err(TablesFault::Line { line }) => line,
        _ => 0,
    }
}

// The line behind the last LF of a text.
fn last_line(text: &[u8]) -> u64 {
    let mut line = 1u64;
    for byte in text {
        if *byte == b'\n' {
            line = line.wrapping_add(1);
        }
    }
    line
}

#[test]
fn beginnings_are_refused(rt: HostRuntime) -> Result<(), Fail> {
    let alloc = rt.alloc();
    for length in 0..FIRST_COME.len() {
        let text = &FIRST_COME[..length];
        assert_eq!(rt; bad_line(alloc, text), last_line(text));
    }
    Ok(())
}
