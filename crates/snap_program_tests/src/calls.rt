use snap_cli::top::snap;
use snap_io::{File, MemoryShelf, MemorySink, have_distinct_names};
use std::alloc::{AllocError, Global};
use std::process::Abort;
use std::test::Fail;
use std::thread::Threads;

// A call's status, and what it writes.
#[derive(Clone, Copy)]
pub(crate) struct Answer<'a> {
    pub(crate) status: u8,
    pub(crate) out: &'a [u8],
    pub(crate) err: &'a [u8],
}

// How many bytes the shelf and the sink take at most in a call, which of their calls fail, and the room for what is
// written.
#[derive(Clone, Copy)]
pub(crate) struct Devices<'a> {
    pub(crate) read_most: usize,
    pub(crate) read_fails: &'a [u64],
    pub(crate) write_most: usize,
    pub(crate) write_fails: &'a [u64],
    pub(crate) out_room: usize,
    pub(crate) err_room: usize,
}

// Devices that never fail.
pub(crate) const AMPLE: Devices<'static> = Devices {
    read_most: 4096,
    read_fails: &[],
    write_most: 4096,
    write_fails: &[],
    out_room: 4096,
    err_room: 256,
};

// Whether `snap` with these files, names with contents, over these devices answers so.
fn answers(
    rt: &(impl Abort + Threads + Sync),
    alloc: Global,
    words: &[&[u8]],
    files: &[(&[u8], &[u8])],
    devices: Devices,
    answer: Answer,
) -> Result<bool, Fail> {
    let words = spelled(alloc, words)?;
    let mut shelf = shelf_over(alloc, files, devices)?;
    let (mut out, mut err) = sinks(alloc, devices)?;
    let status = snap(rt, alloc, &words, &mut shelf, &mut out, &mut err);
    Ok(status == answer.status && out.bytes() == answer.out && err.bytes() == answer.err)
}

// Fails a test where it doesn't.
pub(crate) fn must_answer(
    rt: &(impl Abort + Threads + Sync),
    alloc: Global,
    words: &[&[u8]],
    files: &[(&[u8], &[u8])],
    devices: Devices,
    answer: Answer,
) -> Result<(), Fail> {
    assert!(rt; answers(rt, alloc, words, files, devices, answer)?);
    Ok(())
}

// The same however the reads of the files are cut.
pub(crate) fn must_answer_however_cut(
    rt: &(impl Abort + Threads + Sync),
    alloc: Global,
    words: &[&[u8]],
    files: &[(&[u8], &[u8])],
    answer: Answer,
) -> Result<(), Fail> {
    for read_most in [1, 2, 3, 7, 4096] {
        let devices = Devices { read_most, ..AMPLE };
        must_answer(rt, alloc, words, files, devices, answer)?;
    }
    Ok(())
}

fn sinks(alloc: Global, devices: Devices) -> Result<(MemorySink, MemorySink), Fail> {
    let fails = devices.write_fails.to_vec(alloc)?;
    let out = MemorySink::new(alloc, devices.out_room, devices.write_most.max(1), fails)?;
    let err = MemorySink::new(alloc, devices.err_room, 256, Vec::new(alloc))?;
    Ok((out, err))
}

// The words, each owned.
fn spelled(alloc: Global, words: &[&[u8]]) -> Result<Vec<Vec<u8>>, Fail> {
    let mut spelled = Vec::new(alloc);
    for word in words {
        spelled.push(word.to_vec(alloc)?)?;
    }
    Ok(spelled)
}

fn file(alloc: Global, name: &[u8], bytes: &[u8]) -> Result<File, AllocError> {
    let name = name.to_vec(alloc)?;
    let bytes = bytes.to_vec(alloc)?;
    Ok(File { name, bytes })
}

// These files, names with contents.
fn held(alloc: Global, files: &[(&[u8], &[u8])]) -> Result<Vec<File>, Fail> {
    let mut held = Vec::new(alloc);
    for (name, bytes) in files {
        held.push(file(alloc, *name, *bytes)?)?;
    }
    Ok(held)
}

// A shelf that holds them.
fn shelf_over(
    alloc: Global,
    files: &[(&[u8], &[u8])],
    devices: Devices,
) -> Result<MemoryShelf, Fail> {
    let fails = devices.read_fails.to_vec(alloc)?;
    let held = held(alloc, files)?;
    if !have_distinct_names(&held) {
        return Err("two files have one name")?;
    }
    Ok(MemoryShelf::limited(held, devices.read_most.max(1), fails)?)
}
