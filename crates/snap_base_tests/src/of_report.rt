ghost use Rattle.snap_core.specs.Programs.{IsBounded};

use crate::given::program;
use snap_core::program::{Fields, Program};
use snap_io::{File, MemoryShelf, MemorySink, have_distinct_names};
use snap_report::switch::one_switch;
use snap_report::{Line, PacketDraft, read_line};
use std::alloc::Global;
use std::process::Abort;
use std::test::Fail;

// Lines, and the components of the packet that each says, of which the first is its port.
const LINES: [(&[u8], [u64; 5]); 14] = [
    (b"1", [1, 0, 0, 0, 0]),
    (b"1\r", [1, 0, 0, 0, 0]),
    (b"4294967295", [4_294_967_295, 0, 0, 0, 0]),
    (b"007 outport=03", [7, 3, 0, 0, 0]),
    (b" 2\tf=5  outport=9 \r", [2, 9, 5, 0, 0]),
    (b"1 f=18446744073709551615", [1, 0, u64::MAX, 0, 0]),
    (b"1 f=10.0.6.1", [1, 0, 167_773_697, 0, 0]),
    (b"1 g=10.0.6.1", [1, 0, 0, 655_366, 1]),
    (b"1 g=255.255.255.255", [1, 0, 0, 16_777_215, 255]),
    (b"1 g=7:300", [1, 0, 0, 7, 300]),
    (b"1 g=18446744073709551615:0", [1, 0, 0, u64::MAX, 0]),
    (b"1 g.net=4 g.host=5", [1, 0, 0, 4, 5]),
    (b"1 g.host=10.0.6.1", [1, 0, 0, 0, 167_773_697]),
    (b"1 g.host=5 f=1 outport=2", [1, 2, 1, 0, 5]),
];

// Whether a line that is read behind another says a packet of these components, the first of which is its port.
fn says(alloc: Global, fields: &Fields, line: &[u8], numbers: [u64; 5]) -> Result<bool, Fail> {
    let mut draft = PacketDraft::new(alloc, fields)?;
    let _before = read_line(&mut draft, fields, b"9 outport=8 f=7 g=6:5");
    match read_line(&mut draft, fields, line) {
        Some(Line::Inject { port }) => {
            Ok(u64::from(port) == numbers[0] && draft.packet().comps() == numbers.as_slice())
        }
        _ => Ok(false),
    }
}

fn lines_say(rt: &impl Abort, alloc: Global, fields: &Fields) -> Result<(), Fail> {
    for (line, numbers) in LINES {
        assert!(rt; says(alloc, fields, line, numbers)?, "{line:?}");
    }
    Ok(())
}

#[test]
fn lines_say_their_packets(rt: HostRuntime) -> Result<(), Fail> {
    let program = program(rt.alloc(), "field f; field g/24; id")?;
    lines_say(&rt, rt.alloc(), &program.fields)
}

const COUNTING: &str = "field f; field g/24; array s;
s[inport]++; if s[inport] = 2 then outport <- 2 + outport <- 1 else outport <- 3";

// A shelf with one file.
fn shelf(alloc: Global, name: &[u8], bytes: &[u8]) -> Result<MemoryShelf, Fail> {
    let (name, bytes) = (name.to_vec(alloc)?, bytes.to_vec(alloc)?);
    let files = vec![in alloc; File { name, bytes }]?;
    if !have_distinct_names(&files) {
        return Err("two files have one name")?;
    }
    Ok(MemoryShelf::new(files, Vec::new(alloc))?)
}

// The report of a program over a packets file.
fn report_of(alloc: Global, program: &Program, packets: &[u8]) -> Result<Vec<u8>, Fail>
    requires { IsBounded program.now }
{
    let mut shelf = shelf(alloc, b"q", packets)?;
    let mut sink = MemorySink::new(alloc, 4096, 4096, Vec::new(alloc))?;
    one_switch(alloc, &mut shelf, b"q", program, &mut sink)?;
    Ok(sink.bytes().to_vec(alloc)?)
}

fn report(alloc: Global, text: &str, packets: &[u8]) -> Result<Vec<u8>, Fail> {
    let program = program(alloc, text)?;
    report_of(alloc, &program, packets)
}

#[test]
fn one_switch_writes_its_report(rt: HostRuntime) -> Result<(), Fail> {
    let packets = b"7 g=10.0.6.1\n# second\n7 f=9\n5 g=7:300";
    let written = report(rt.alloc(), COUNTING, packets)?;
    let wanted: &[u8] = b"packet 1\n\
        out inport=7 outport=3 f=0 g=10.0.6.1\n\
        packet 2\n\
        out inport=7 outport=1 f=9 g=0.0.0.0\n\
        out inport=7 outport=2 f=9 g=0.0.0.0\n\
        packet 3\n\
        out inport=5 outport=3 f=0 g=7:300\n\
        array s 5 = 1\n\
        array s 7 = 2\n\
        end\n";
    assert_eq!(rt; written.as_slice(), wanted);
    Ok(())
}

// Choices among many numbers: two have one number, and another field's test cuts them.
const CUT: &str = "field f; field g;
if f = 3 then outport <- 1 else if f = 5 then outport <- 2 else if f = 3 then outport <- 3
else if f = 4 then outport <- 4 else if g = 5 then outport <- 5 else if f = 6 then outport <- 6
else outport <- 7";

// Behind a fork each packet makes its own choice.
const FORKED: &str = "field f; (id + f <- 5);
if f = 3 then outport <- 1 else if f = 4 then outport <- 2 else if f = 5 then outport <- 3
else if f = 6 then drop else outport <- 4";

// Choices one behind the other, with an update between them.
const TWICE: &str = "field f; array s;
if f = 1 then outport <- 1 else if f = 2 then outport <- 2 else if f = 3 then outport <- 3
else if f = 4 then outport <- 4 else id;
s[outport]++;
if outport = 1 then f <- 10 else if outport = 2 then f <- 20 else if outport = 3 then f <- 30
else if outport = 4 then drop else f <- 50";

// Programs, packets, and the report of each, worked by hand.
const CHOSEN: &[(&str, &[u8], &[u8])] = &[
    (
        CUT,
        b"1 f=3\n1 f=4\n1 f=6\n1 f=6 g=5\n1 g=5 f=5\n1",
        b"packet 1\nout inport=1 outport=1 f=3 g=0\n\
        packet 2\nout inport=1 outport=4 f=4 g=0\n\
        packet 3\nout inport=1 outport=6 f=6 g=0\n\
        packet 4\nout inport=1 outport=5 f=6 g=5\n\
        packet 5\nout inport=1 outport=2 f=5 g=5\n\
        packet 6\nout inport=1 outport=7 f=0 g=0\nend\n",
    ),
    (
        FORKED,
        b"1 f=3\n1 f=6\n1 f=5\n1 f=7",
        b"packet 1\nout inport=1 outport=1 f=3\nout inport=1 outport=3 f=5\n\
        packet 2\nout inport=1 outport=3 f=5\n\
        packet 3\nout inport=1 outport=3 f=5\n\
        packet 4\nout inport=1 outport=3 f=5\nout inport=1 outport=4 f=7\nend\n",
    ),
    (
        TWICE,
        b"1 f=3\n1 f=4\n1 f=1\n1 f=9\n1 f=3",
        b"packet 1\nout inport=1 outport=3 f=30\npacket 2\n\
        packet 3\nout inport=1 outport=1 f=10\n\
        packet 4\nout inport=1 outport=0 f=50\n\
        packet 5\nout inport=1 outport=3 f=30\n\
        array s 0 = 1\narray s 1 = 1\narray s 3 = 2\narray s 4 = 1\nend\n",
    ),
];

#[test]
fn choices_among_many_numbers_lead_each_packet(rt: HostRuntime) -> Result<(), Fail> {
    for (text, packets, wanted) in CHOSEN {
        let written = report(rt.alloc(), *text, *packets)?;
        assert!(rt; written.as_slice() == *wanted, "{text}");
    }
    Ok(())
}
