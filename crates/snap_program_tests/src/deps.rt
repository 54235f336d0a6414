use crate::calls::{AMPLE, Answer, Devices, must_answer};
use std::test::Fail;

const TUNNEL: &[u8] = b"
field srcip/24; field dstip/24; field srcport; field dns.rdata/24;
array orphan; array susp-client; array blacklist;
if dstip = 10.0.6.0/24 & srcport = 53 then
  orphan[dstip][dns.rdata] <- True;
  susp-client[dstip]++;
  if susp-client[dstip] = 3 then blacklist[dstip] <- True else id
else if srcip = 10.0.6.0/24 & orphan[srcip][dstip] then
  orphan[srcip][dstip] <- False;
  susp-client[srcip]--
else id";

const CYCLE: &[u8] = b"
array a; array b; array c;
(if a[inport] then b[inport]++ else id)
+ (if b[inport] then c[inport]++ else id)
+ (if c[inport] then a[inport]++ else id)";

// Programs, and what is written of each.
const WRITTEN: &[(&[u8], &[u8])] = &[
    (
        TUNNEL,
        b"dep orphan orphan\ndep orphan susp-client\ndep susp-client blacklist\ngroup orphan\ngroup susp-client\ngroup blacklist\nend\n",
    ),
    (
        b"field f; array s; array t; atomic(s[f]++; t[f]++)",
        b"dep s s\ndep s t\ndep t s\ndep t t\ngroup s t\nend\n",
    ),
    (CYCLE, b"dep a b\ndep b c\ndep c a\ngroup a b c\nend\n"),
    (
        b"array s; array t; array u; if u[inport] then s[inport]++ else t[inport]++",
        b"dep u s\ndep u t\ngroup u\ngroup s\ngroup t\nend\n",
    ),
    (b"array s; outport <- 1", b"group s\nend\n"),
    (b"outport <- 1", b"end\n"),
];

#[test]
fn deps_writes_dependencies_and_groups(rt: HostRuntime) -> Result<(), Fail> {
    for (program, out) in WRITTEN {
        let files: &[(&[u8], &[u8])] = &[(b"p", *program)];
        let written = Answer {
            status: 0,
            out: *out,
            err: b"",
        };
        must_answer(&rt, rt.alloc(), &[b"deps", b"p"], files, AMPLE, written)?;
    }
    Ok(())
}

#[test]
fn deps_stops_where_the_output_does(rt: HostRuntime) -> Result<(), Fail> {
    let files: &[(&[u8], &[u8])] = &[(b"p", b"array s; outport <- 1")];
    let full = Devices {
        out_room: 7,
        write_most: 2,
        ..AMPLE
    };
    let cut = Answer {
        status: 3,
        out: b"group s",
        err: b"snapc: cannot write\n",
    };
    must_answer(&rt, rt.alloc(), &[b"deps", b"p"], files, full, cut)
}
