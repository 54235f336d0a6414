use crate::calls::{AMPLE, Answer, Devices, must_answer, must_answer_however_cut};
use std::test::Fail;

const WORDS: &[&[u8]] = &[b"trace", b"t", b"k"];

// The first packet goes to port 1, later ones to port 2.
const FIRST_COME: &[u8] = b"snap-tables 1
field inport
field outport
switch a
switch b
array s 1
link 0 1
port 1 0
port 2 1
hop 0 1 1
hop 1 0 0
row 0 0 go 1
row 1 0 state 0 [#0] #0 1 2
row 1 1 leaf at 1 put 0 [#0] #1 out c1=#1
row 1 2 leaf out c1=#2
end
";

const FILES: &[(&[u8], &[u8])] = &[(b"t", FIRST_COME), (b"k", b"1\n2\n")];

const FIRST_BLOCK: &[u8] = b"packet 1
out inport=1 outport=1
lost 0
";

const REPORT: &[u8] = b"packet 1
out inport=1 outport=1
lost 0
packet 2
out inport=2 outport=2
lost 0
array s 0 = 1
end
";

#[test]
fn trace_writes_one_report_however_reads_are_cut(rt: HostRuntime) -> Result<(), Fail> {
    let whole = Answer {
        status: 0,
        out: REPORT,
        err: b"",
    };
    must_answer_however_cut(&rt, rt.alloc(), WORDS, FILES, whole)
}

const LONE: &[u8] = b"inject\ninject\nstep 1\nstep 0\nstep 0\nstep 1\nstep 1\nstep 0\n";

const LATE_FIRST: &[u8] = b"packet 1
out inport=1 outport=2
lost 0
packet 2
out inport=2 outport=1
lost 0
array s 0 = 1
end
";

#[test]
fn trace_does_what_a_schedule_orders(rt: HostRuntime) -> Result<(), Fail> {
    let words: &[&[u8]] = &[b"trace", b"--schedule=s", b"t", b"k"];
    let files: &[(&[u8], &[u8])] = &[(b"t", FIRST_COME), (b"k", b"1\n2\n"), (b"s", LONE)];
    let whole = Answer {
        status: 0,
        out: LATE_FIRST,
        err: b"",
    };
    must_answer(&rt, rt.alloc(), words, files, AMPLE, whole)
}

#[test]
fn trace_ends_where_a_device_fails(rt: HostRuntime) -> Result<(), Fail> {
    // The tables take 114 reads of two bytes, and each line of packets one.
    let second_line = Devices {
        read_most: 2,
        read_fails: &[115],
        ..AMPLE
    };
    let tables = Devices {
        read_fails: &[0],
        ..AMPLE
    };
    let tenth_byte = Devices {
        write_most: 1,
        write_fails: &[10],
        ..AMPLE
    };
    let cases: [(Devices, u8, &[u8], &[u8]); 3] = [
        (second_line, 2, FIRST_BLOCK, b"snapc: cannot read k\n"),
        (tables, 2, b"", b"snapc: cannot read t\n"),
        (tenth_byte, 3, b"packet 1\no", b"snapc: cannot write\n"),
    ];
    for (devices, status, out, err) in cases {
        let answer = Answer { status, out, err };
        must_answer(&rt, rt.alloc(), WORDS, FILES, devices, answer)?;
    }
    Ok(())
}
