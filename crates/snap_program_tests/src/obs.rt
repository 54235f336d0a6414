use crate::calls::{AMPLE, Answer, Devices, must_answer, must_answer_however_cut};
use std::test::Fail;

const WORDS: &[&[u8]] = &[b"obs", b"p", b"q"];

// What is written before a line that isn't in form, and before a packet on which the program is undefined, stays.
const CUT: &[(&[u8], &[u8], Answer<'static>)] = &[
    (
        b"if inport = 1 then outport <- 2 else if inport = 2 then outport <- 1 else drop",
        b"1\nx\n",
        Answer {
            status: 12,
            out: b"packet 1\nout inport=1 outport=2\n",
            err: b"snapc: packets: line 2\n",
        },
    ),
    (
        b"array s; (id + outport <- 2); s[inport]++",
        b"1 outport=2\n1 outport=3\n",
        Answer {
            status: 15,
            out: b"packet 1\nout inport=1 outport=2\n",
            err: b"snapc: undefined: packet 2\n",
        },
    ),
];

#[test]
fn obs_writes_what_comes_before_a_fault(rt: HostRuntime) -> Result<(), Fail> {
    for (program, packets, answer) in CUT {
        let files: &[(&[u8], &[u8])] = &[(b"p", *program), (b"q", *packets)];
        must_answer(&rt, rt.alloc(), WORDS, files, AMPLE, *answer)?;
    }
    Ok(())
}

#[test]
fn obs_ends_where_a_device_fails(rt: HostRuntime) -> Result<(), Fail> {
    // The program takes seven reads of two bytes, and each line one.
    let second_line = Devices {
        read_most: 2,
        read_fails: &[8],
        ..AMPLE
    };
    let program = Devices {
        read_fails: &[0],
        ..AMPLE
    };
    let tenth_byte = Devices {
        write_most: 1,
        write_fails: &[10],
        ..AMPLE
    };
    let untold = Devices {
        err_room: 0,
        ..second_line
    };
    let unwritten = Devices {
        err_room: 0,
        ..tenth_byte
    };
    let block: &[u8] = b"packet 1\nout inport=1 outport=2\n";
    let cases: [(Devices, u8, &[u8], &[u8]); 5] = [
        (second_line, 2, block, b"snapc: cannot read q\n"),
        (program, 2, b"", b"snapc: cannot read p\n"),
        (tenth_byte, 3, b"packet 1\no", b"snapc: cannot write\n"),
        (untold, 2, block, b""),
        (unwritten, 3, b"packet 1\no", b""),
    ];
    let files: &[(&[u8], &[u8])] = &[(b"p", b"outport <- 2"), (b"q", b"1\n2\n")];
    for (devices, status, out, err) in cases {
        let answer = Answer { status, out, err };
        must_answer(&rt, rt.alloc(), WORDS, files, devices, answer)?;
    }
    Ok(())
}

// Detects tunnels over DNS (`examples/dns-tunnel`).
fn dns_tunnel() -> &'static [u8] {
    b"# Detects tunnels over DNS: clients that look up many addresses and use few of them (after the SNAP paper's example).
field srcip/24; field dstip/24; field srcport; field dns.rdata/24;
array orphan; array susp-client; array blacklist;
const threshold = 3;
let dns-tunnel {
  if dstip = 10.0.6.0/24 & srcport = 53 then
    orphan[dstip][dns.rdata] <- True;
    susp-client[dstip]++;
    if susp-client[dstip] = threshold then blacklist[dstip] <- True else id
  else if srcip = 10.0.6.0/24 & orphan[srcip][dstip] then
    orphan[srcip][dstip] <- False;
    susp-client[srcip]--
  else id
}
let assign-egress {
  if dstip = 10.0.1.0/24 then outport <- 1
  else if dstip = 10.0.2.0/24 then outport <- 2
  else if dstip = 10.0.3.0/24 then outport <- 3
  else if dstip = 10.0.4.0/24 then outport <- 4
  else if dstip = 10.0.5.0/24 then outport <- 5
  else if dstip = 10.0.6.0/24 then outport <- 6
  else drop
}
dns-tunnel; assign-egress
"
}

// What clients and servers send while one of them is taken for a tunnel.
fn dns_packets() -> &'static [u8] {
    b"1 srcip=10.0.1.1 dstip=10.0.6.10 srcport=53 dns.rdata=10.0.2.20
6 srcip=10.0.6.10 dstip=10.0.2.20 srcport=4000
1 srcip=10.0.1.1 dstip=10.0.6.10 srcport=53 dns.rdata=10.0.3.30
1 srcip=10.0.1.1 dstip=10.0.6.10 srcport=53 dns.rdata=10.0.3.31
1 srcip=10.0.1.1 dstip=10.0.6.10 srcport=53 dns.rdata=10.0.3.32
1 srcip=10.0.1.1 dstip=10.0.6.10 srcport=53 dns.rdata=10.0.3.33
6 srcip=10.0.6.10 dstip=10.0.3.30 srcport=4000
6 srcip=10.0.6.10 dstip=10.0.4.4 srcport=4000
2 srcip=10.0.2.20 dstip=10.0.5.5 srcport=80
3 srcip=10.0.3.3 dstip=10.0.9.9
"
}

fn dns_report() -> &'static [u8] {
    b"packet 1
out inport=1 outport=6 srcip=10.0.1.1 dstip=10.0.6.10 srcport=53 dns.rdata=10.0.2.20
packet 2
out inport=6 outport=2 srcip=10.0.6.10 dstip=10.0.2.20 srcport=4000 dns.rdata=0.0.0.0
packet 3
out inport=1 outport=6 srcip=10.0.1.1 dstip=10.0.6.10 srcport=53 dns.rdata=10.0.3.30
packet 4
out inport=1 outport=6 srcip=10.0.1.1 dstip=10.0.6.10 srcport=53 dns.rdata=10.0.3.31
packet 5
out inport=1 outport=6 srcip=10.0.1.1 dstip=10.0.6.10 srcport=53 dns.rdata=10.0.3.32
packet 6
out inport=1 outport=6 srcip=10.0.1.1 dstip=10.0.6.10 srcport=53 dns.rdata=10.0.3.33
packet 7
out inport=6 outport=3 srcip=10.0.6.10 dstip=10.0.3.30 srcport=4000 dns.rdata=0.0.0.0
packet 8
out inport=6 outport=4 srcip=10.0.6.10 dstip=10.0.4.4 srcport=4000 dns.rdata=0.0.0.0
packet 9
out inport=2 outport=5 srcip=10.0.2.20 dstip=10.0.5.5 srcport=80 dns.rdata=0.0.0.0
packet 10
array orphan 655366 10 655363 31 = 1
array orphan 655366 10 655363 32 = 1
array orphan 655366 10 655363 33 = 1
array susp-client 655366 10 = 3
array blacklist 655366 10 = 1
end
"
}

#[test]
fn obs_writes_one_report_however_reads_are_cut(rt: HostRuntime) -> Result<(), Fail> {
    let files: &[(&[u8], &[u8])] = &[(b"p", dns_tunnel()), (b"q", dns_packets())];
    let whole = Answer {
        status: 0,
        out: dns_report(),
        err: b"",
    };
    must_answer_however_cut(&rt, rt.alloc(), WORDS, files, whole)
}
