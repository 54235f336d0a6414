use crate::calls::{AMPLE, Answer, must_answer};
use std::test::Fail;

// Counts packets at their port's switch.
const COUNTED: &[u8] = b"snap-tables 2
field inport
field outport
switch a
array s 0 0
port 1 0
row 0 0 leaf add 0 [#0] 1 out c1=#1
end
";

const BOTH: &[u8] = b"packet 1
out inport=1 outport=1
lost 0
packet 2
out inport=1 outport=1
lost 0
array s 0 = 2
end
";

const TWO_REPORTED: Answer<'static> = Answer {
    status: 0,
    out: BOTH,
    err: b"",
};

#[test]
fn trace_takes_packets_in_order(rt: HostRuntime) -> Result<(), Fail> {
    let words: &[&[u8]] = &[b"trace", b"--ordered", b"t", b"k", b"--schedule=s"];
    // The first `step` waits for the packet before.
    let waits: &[u8] = b"inject\ninject\nstep 1\nstep 0\nstep 1\nstep 0\nstep 0\n";
    let files: &[(&[u8], &[u8])] = &[(b"t", COUNTED), (b"k", b"1\n1\n"), (b"s", waits)];
    must_answer(&rt, rt.alloc(), words, files, AMPLE, TWO_REPORTED)
}

#[test]
fn trace_takes_turns_without_a_schedule(rt: HostRuntime) -> Result<(), Fail> {
    let alone: &[&[u8]] = &[b"trace", b"t", b"k", b"--ordered"];
    let workers: &[&[u8]] = &[b"trace", b"t", b"k", b"--ordered", b"--workers", b"3"];
    let files: &[(&[u8], &[u8])] = &[(b"t", COUNTED), (b"k", b"1\n1\n")];
    for words in [alone, workers] {
        must_answer(&rt, rt.alloc(), words, files, AMPLE, TWO_REPORTED)?;
    }
    Ok(())
}
