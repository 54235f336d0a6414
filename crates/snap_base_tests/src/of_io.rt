// Files read whole and line by line.
ghost use Rattle.snap_io.specs.LineReaders.{AgreesWith};

use snap_io::*;
use std::alloc::Global;
use std::fs;
use std::test::Fail;

// A shelf with one file of three lines and 9 bytes, which gives at most `most` bytes a read.
fn shelf(alloc: Global, most: usize, fails: &[u64]) -> Result<MemoryShelf, Fail> {
    let (name, bytes) = (b"a".to_vec(alloc)?, b"one\r\n\ntwo".to_vec(alloc)?);
    let files = vec![in alloc; File { name, bytes }]?;
    if !have_distinct_names(&files) {
        return Err("two files have one name")?;
    }
    let fails = fails.to_vec(alloc)?;
    Ok(MemoryShelf::limited(files, most.max(1), fails)?)
}

// Puts what the next call gives: a line with an LF behind it, or else a word.
fn put_next<S: Shelf>(shelf: &mut S, lines: &mut Lines, out: &mut Vec<u8>) -> Result<(), Fail>
    requires { AgreesWith (S.files shelf.old) lines.old }
    ensures { AgreesWith (S.files shelf.new) lines.new }
{
    let word: &[u8] = match lines.next(shelf) {
        Ok(true) => {
            out.extend_from_slice(lines.line())?;
            b"\n"
        }
        Ok(false) => b"[end]",
        Err(LinesFault::Failed) => b"[failed]",
        Err(LinesFault::LongLine) => b"[long]",
        Err(LinesFault::ManyBytes) => b"[many]",
    };
    Ok(out.extend_from_slice(word)?)
}

// What four calls give.
fn four<S: Shelf>(
    alloc: Global,
    shelf: &mut S,
    name: &[u8],
    limit: u64,
    most: usize,
) -> Result<Vec<u8>, Fail> {
    let mut lines = Lines::new(alloc, name, limit, most)?;
    let mut out = Vec::new(alloc);
    put_next(shelf, &mut lines, &mut out)?;
    put_next(shelf, &mut lines, &mut out)?;
    put_next(shelf, &mut lines, &mut out)?;
    put_next(shelf, &mut lines, &mut out)?;
    Ok(out)
}

// How many bytes a read gives at most, which reads fail, how many bytes the file and a line may have, and what is given.
const GIVEN: [(usize, &[u64], u64, usize, &[u8]); 8] = [
    (1, &[], 9, 4, b"one\r\n\ntwo\n[end]"),
    (2, &[], 9, 4, b"one\r\n\ntwo\n[end]"),
    (3, &[], 9, 4, b"one\r\n\ntwo\n[end]"),
    (7, &[], 9, 4, b"one\r\n\ntwo\n[end]"),
    (4096, &[], 9, 4, b"one\r\n\ntwo\n[end]"),
    (5, &[], 9, 3, b"[long][long][long][long]"),
    (5, &[], 8, 4, b"one\r\n\n[many][many]"),
    (5, &[1], 9, 4, b"one\r\n[failed]\ntwo\n"),
];

#[test]
fn gives_the_lines_however_reads_are_cut(rt: HostRuntime) -> Result<(), Fail> {
    let alloc = rt.alloc();
    for (at_most, fails, limit, most, wanted) in GIVEN {
        let mut shelf = shelf(alloc, at_most, fails)?;
        let given = four(alloc, &mut shelf, b"a", limit, most)?;
        assert_eq!(rt; given.as_slice(), wanted);
    }
    Ok(())
}

#[test]
fn writes_pieces_to_a_sink_in_memory(rt: HostRuntime) -> Result<(), Fail> {
    let alloc = rt.alloc();
    let mut sink = MemorySink::new(alloc, 5, 2, Vec::new(alloc))?;
    let written = write_pieces(&mut sink, &[b"one", b"two"]);
    assert_eq!(rt; written, Err(WriteFailed));
    assert_eq!(rt; sink.bytes(), b"onetw".as_slice());
    Ok(())
}

#[test]
fn reads_the_hosts_files(rt: HostRuntime) -> Result<(), Fail> {
    let alloc = rt.alloc();
    fs::write(&rt, "lines_of_a_test", b"one\ntwo")?;
    let mut shelf = HostShelf::new(&rt);
    let bytes = read_whole(alloc, &mut shelf, b"lines_of_a_test", 7)?;
    assert_eq!(rt; bytes.as_slice(), b"one\ntwo".as_slice());
    let given = four(alloc, &mut shelf, b"lines_of_a_test", 7, 3)?;
    assert_eq!(rt; given.as_slice(), b"one\ntwo\n[end][end]".as_slice());
    fs::remove_file(&rt, "lines_of_a_test")?;
    Ok(())
}

const READS: [(&[u8], u64, [u8; 2]); 6] = [
    (b"first_of_a_test", 0, [b'a', b'b']),
    (b"first_of_a_test", 0, [b'a', b'b']),
    (b"first_of_a_test", 3, [b'd', b'e']),
    (b"second_of_a_test", 4, [b'y', b'z']),
    (b"first_of_a_test", 3, [b'd', b'e']),
    (b"first_of_a_test", 1, [b'b', b'c']),
];

// Two bytes of a file.
fn two<S: Shelf>(shelf: &mut S, name: &[u8], from: u64) -> Result<[u8; 2], Fail> {
    let mut into = [0u8; 2];
    match shelf.read_at(name, from, &mut into)? {
        2 => Ok(into),
        _ => Err("not two bytes")?,
    }
}

#[test]
fn reads_the_hosts_files_at_any_place(rt: HostRuntime) -> Result<(), Fail> {
    fs::write(&rt, "first_of_a_test", b"abcdef")?;
    fs::write(&rt, "second_of_a_test", b"uvwxyz")?;
    let mut shelf = HostShelf::new(&rt);
    for (name, from, bytes) in READS {
        assert_eq!(rt; two(&mut shelf, name, from)?, bytes);
    }
    fs::remove_file(&rt, "first_of_a_test")?;
    fs::remove_file(&rt, "second_of_a_test")?;
    Ok(())
}

#[test]
fn fills_sinks(rt: HostRuntime) -> Result<(), Fail> {
    let mut sink = HostSink::new(Vec::new(rt.alloc()));
    write_whole(&mut sink, b"text")?;
    Ok(write_whole(&mut FullSink::new(), b"text")?)
}

#[test]
fn reads_a_full_shelf(rt: HostRuntime) -> Result<(), Fail> {
    let mut shelf = FullShelf::new(Vec::new(rt.alloc()));
    assert!(rt; read_whole(rt.alloc(), &mut shelf, b"a", 0)?.is_empty());
    Ok(())
}
