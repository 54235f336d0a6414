use crate::calls::{AMPLE, Answer, Devices, must_answer};
use std::test::Fail;

const WORDS: &[&[u8]] = &[b"compile", b"p", b"t", b"l"];

// Where g and h are different numbers no place holds both, so nothing is left to test.
const CONSTANT_EGRESS: &[u8] =
    b"field f; field g; field h; array s; if g = 1 & h = 2 & s[f] = g & s[f] = h then outport <- 1 else outport <- 2";

const ONE_SWITCH: &[u8] = b"switches = [\"a\"]\nlinks = []\n[ports]\n1 = \"a\"\n2 = \"a\"\n";

const TABLES: &[u8] = b"snap-tables 2
field inport
field outport
field f
field g
field h
switch a
array s 0 0
port 1 0
port 2 0
row 0 0 leaf out c1=#2
end
";

const FILES: &[(&[u8], &[u8])] = &[
    (b"p", CONSTANT_EGRESS),
    (b"t", ONE_SWITCH),
    (b"l", b"s = \"a\"\n"),
];

#[test]
fn constant_egress_is_one_leaf(rt: HostRuntime) -> Result<(), Fail> {
    let whole = Answer {
        status: 0,
        out: TABLES,
        err: b"",
    };
    must_answer(&rt, rt.alloc(), WORDS, FILES, AMPLE, whole)
}

#[test]
fn compile_stops_where_a_device_fails(rt: HostRuntime) -> Result<(), Fail> {
    let devices = Devices {
        write_most: 1,
        write_fails: &[10],
        ..AMPLE
    };
    let cut = Answer {
        status: 3,
        out: b"snap-table",
        err: b"snapc: cannot write\n",
    };
    must_answer(&rt, rt.alloc(), WORDS, FILES, devices, cut)
}
