//! Why a command ends without its whole output: its status and its message.

ghost use Rattle.std.specs.Prelude.{◌≡◌, Err, OnOk, OnErr};
ghost use Rattle.std.specs.Io.KnownBytes.{Appends};
ghost use Rattle.snap_io.specs.Causes.{HasCause};
ghost use Rattle.snap_io.specs.Sinks.{AppendsPart};
ghost use Rattle.snap_runs.specs.Tallies.{name_in};
ghost use Rattle.snap_cli.specs.declared.refusal.Refusal.TheVariants as refused;
ghost use Rattle.snap_cli.specs.Messages.{bytes_of};
ghost use Rattle.snap_cli.specs.Refusals.{message_naming, message_of, message_of_demand, message_of_placement, message_of_tables, message_of_topology, message_text, message_with, naming_text, rule_text, status_of, syntax_text, which_text};

use crate::spot::Position;
use itoa::Buffer;
use snap_core::NoMemory;
use snap_core::lists::{Name, Names};
use snap_core::program::Which;
use snap_io::{Sink, WriteFailed, write_pieces, write_whole};
use snap_rows::tables::Rule;

/// Why a text has no tree.
#[derive(Clone, Copy)]
pub enum SyntaxFault {
    BadByte,
    BadNumber,
    UnexpectedToken,
    TooDeep,
}

/// Which naming rule is broken.
#[derive(Clone, Copy)]
pub enum NamingFault {
    UnknownName,
    DeclaredTwice,
    WrongKind,
    WrongArity,
    TooWide,
    WrongPrefix,
}

/// Why a file spells no topology.
#[derive(Drop)]
pub enum TopologyFault {
    /// The bytes are not UTF-8, or no TOML document.
    NotToml,

    /// The keys (1), `switches` (2), `links` (3) or `ports` (4) are out of shape.
    Shape { rule: u8 },

    /// This switch stands earlier in the list.
    SwitchTwice { name: Name },

    /// A link or a port names this, which is no switch.
    UnknownSwitch { name: Name },
}

/// Why a file spells no demand of a program on a topology.
#[derive(Drop)]
pub enum NoDemand {
    /// The bytes are not UTF-8, or no TOML document.
    NotToml,

    /// The keys (1), `demand` (2) or `allowed` (3) are out of shape.
    Shape { rule: u8 },

    /// The topology has no such port.
    NoPort { port: u32 },

    /// The program has no such array.
    NoArray { name: Name },

    /// The topology has no such switch.
    NoSwitch { name: Name },

    /// The group of this one of the program's arrays may stand nowhere.
    Nowhere { arrays: Names, array: u16 },
}

/// Why a file spells no placement of a program on a topology.
#[derive(Drop)]
pub enum NoPlacement {
    /// The bytes are not UTF-8, or no TOML document.
    NotToml,

    /// A key isn't spelled like a name of a program (1), or a value is no switch name (2).
    Shape { rule: u8 },

    /// The program has no such array.
    NoArray { name: Name },

    /// This one of the program's arrays has no switch.
    NoPlace { arrays: Names, array: u16 },

    /// What stands for this one of the program's arrays is no switch.
    NoSwitch { arrays: Names, array: u16 },

    /// These two of the program's arrays are tied and stand at different switches.
    Apart { arrays: Names, a: u16, b: u16 },
}

/// Why a file spells no valid tables. Lines are counted from 1.
#[derive(Clone, Copy)]
pub enum NoTables {
    /// This line isn't of its form after the lines before it.
    Line { line: u64 },

    /// The tables are in form. This is the first of their rules that is broken, and the line at which it is first.
    Broken { rule: Rule, line: u64 },
}

/// Why a command ends without its whole output.
#[derive(Drop)]
pub enum Refusal<'a> {
    /// The words are of no command's form.
    Usage,

    /// The file with this name can't be read.
    Read { name: &'a [u8] },

    /// The output can't be written.
    Write,

    /// The program's text has no tokens or no tree.
    Syntax { fault: SyntaxFault, spot: Position },

    /// A naming rule is broken.
    Naming { fault: NamingFault, spot: Position },

    /// A counted quantity passes its limit.
    Limit { which: Which, count: u64 },

    /// The file spells no topology.
    Topology { fault: TopologyFault },

    /// No walk joins two of these switches, those with the numbers `a` and `b`.
    Unreachable { switches: Names, a: u16, b: u16 },

    /// The file spells no demand.
    Demand { fault: NoDemand },

    /// Two parts of the program race. This is the whole message, which tells a store and a packet on which they do.
    Race { text: Vec<u8> },

    /// Two programs differ in their lists of fields or of names of arrays.
    Declarations,

    /// Two programs don't mean the same. This is the whole message, which tells a store and a packet on which they don't.
    Differ { text: Vec<u8> },

    /// This line of the packets file isn't in form, or too long.
    Packets { line: u64 },

    /// Memory was refused.
    NoMemory,

    /// Evaluation is undefined first at this packet.
    Undefined { packet: u64 },

    /// The file spells no placement.
    Placement { fault: NoPlacement },

    /// The file spells no valid tables.
    Tables { fault: NoTables },

    /// This file, which a changes file names, can't be read.
    ReadChange { name: Name },

    /// This line of the changes isn't in form, or its tables have another shape than the first.
    Changes { line: u64 },

    /// This line of the schedule isn't in form or can't be done, or the schedule ends before it too early.
    Schedule { line: u64 },

    /// The tables are of version 1, in which packets take no turns.
    VersionOne,
}

fn which_text(which: Which) -> &'static [u8]
    ensures { result.now ≡ which_text which }
{
    match which {
        Which::Bytes => b"bytes",
        Which::Lines => b"lines",
        Which::Components => b"components",
        Which::Arrays => b"arrays",
        Which::Atoms => b"atoms",
        Which::Nodes => b"nodes",
        Which::Weight => b"weight",
        Which::Switches => b"switches",
        Which::Links => b"links",
        Which::Ports => b"ports",
        Which::Demands => b"demands",
        Which::Changes => b"changes",
    }
}

fn syntax_text(fault: SyntaxFault) -> &'static [u8]
    ensures { result.now ≡ syntax_text fault }
{
    match fault {
        SyntaxFault::BadByte => b"bad byte",
        SyntaxFault::BadNumber => b"bad number",
        SyntaxFault::UnexpectedToken => b"unexpected token",
        SyntaxFault::TooDeep => b"too deep",
    }
}

fn naming_text(fault: NamingFault) -> &'static [u8]
    ensures { result.now ≡ naming_text fault }
{
    match fault {
        NamingFault::UnknownName => b"unknown name",
        NamingFault::DeclaredTwice => b"declared twice",
        NamingFault::WrongKind => b"wrong kind",
        NamingFault::WrongArity => b"wrong number of indices",
        NamingFault::TooWide => b"number too wide",
        NamingFault::WrongPrefix => b"wrong prefix",
    }
}

// A message before it is written.
#[derive(Clone, Copy)]
enum Message<'m> {
    // `snapc: TEXT`
    Text {
        text: &'m [u8],
    },

    // `snapc: TEXT NAME`
    Name {
        text: &'m [u8],
        name: &'m [u8],
    },

    // `snapc: TEXT NUMBER`
    Number {
        text: &'m [u8],
        number: u64,
    },

    // `snapc: TEXT FROM TO`
    Names {
        text: &'m [u8],
        from: &'m [u8],
        to: &'m [u8],
    },

    // `snapc: TEXT NAME`, this between them, and `NUMBER`
    Counted {
        text: &'m [u8],
        name: &'m [u8],
        between: &'m [u8],
        number: u64,
    },

    // `snapc: LINE:COLUMN: TEXT`
    At {
        spot: Position,
        text: &'m [u8],
    },

    // All lines.
    Whole {
        text: &'m [u8],
    },
}

// Writes a message.
fn write<E: Sink>(err: &mut E, message: Message<'_>) -> Result<(), WriteFailed>
    ensures ok { OnOk result (Appends (E.taken err.old) (E.taken err.new) (bytes_of message.entry)) }
    ensures err { OnErr result (AppendsPart (E.taken err.old) (E.taken err.new) (bytes_of message.entry)) }
    ensures cause { HasCause (E.faults err.old) (E.faults err.new) result }
{
    let mut digits = Buffer::new();
    let mut columns = Buffer::new();
    match message {
        Message::Text { text } => write_pieces(err, &[b"snapc: ", text, b"\n"]),
        Message::Name { text, name } => write_pieces(err, &[b"snapc: ", text, b" ", name, b"\n"]),
        Message::Number { text, number } => {
            let number = digits.format(number).as_bytes();
            write_pieces(err, &[b"snapc: ", text, b" ", number, b"\n"])
        }
        Message::Names { text, from, to } => {
            write_pieces(err, &[b"snapc: ", text, b" ", from, b" ", to, b"\n"])
        }
        Message::Counted {
            text,
            name,
            between,
            number,
        } => {
            let number = digits.format(number).as_bytes();
            write_pieces(err, &[b"snapc: ", text, b" ", name, between, number, b"\n"])
        }
        Message::At { spot, text } => {
            let line = digits.format(spot.line).as_bytes();
            let column = columns.format(spot.column).as_bytes();
            write_pieces(err, &[b"snapc: ", line, b":", column, b": ", text, b"\n"])
        }
        Message::Whole { text } => write_whole(err, text),
    }
}

// `snapc: TEXT`
fn text(text: &[u8]) -> Message<'_>
    ensures { bytes_of result ≡ message_text text.entry.now }
{
    Message::Text { text }
}

// `snapc: TEXT NUMBER`
fn number(text: &[u8], number: u64) -> Message<'_>
    ensures { bytes_of result ≡ message_with text.entry.now number }
{
    Message::Number { text, number }
}

// `snapc: TEXT NAME`
fn named<'m>(text: &'m [u8], name: &'m [u8]) -> Message<'m>
    ensures { bytes_of result ≡ message_naming text.entry.now name.entry.now }
{
    Message::Name { text, name }
}

// Why a file spells no topology.
fn topology_message(fault: &TopologyFault) -> Message<'_>
    ensures { bytes_of result ≡ message_of_topology fault.now }
{
    match fault {
        TopologyFault::NotToml => text(b"topology: not TOML"),
        TopologyFault::Shape { rule } => number(b"topology: shape", *rule as u64),
        TopologyFault::SwitchTwice { name } => named(b"topology: switch twice", name.items()),
        TopologyFault::UnknownSwitch { name } => named(b"topology: unknown switch", name.items()),
    }
}

/// The name of the array or the switch with this number, or nothing where there is none.
pub(crate) fn name_at(names: &Names, number: u16) -> &[u8]
    ensures { result.now ≡ name_in names.now number }
{
    match names.items().get(number as usize) {
        Some(name) => name.items(),
        None => &[],
    }
}

// Why a file spells no demand.
fn demand_message(fault: &NoDemand) -> Message<'_>
    ensures { bytes_of result ≡ message_of_demand fault.now }
{
    match fault {
        NoDemand::NotToml => text(b"demand: not TOML"),
        NoDemand::Shape { rule } => number(b"demand: shape", *rule as u64),
        NoDemand::NoPort { port } => number(b"demand: no port", *port as u64),
        NoDemand::NoArray { name } => named(b"demand: no array", name.items()),
        NoDemand::NoSwitch { name } => named(b"demand: no switch", name.items()),
        NoDemand::Nowhere { arrays, array } => named(b"demand: nowhere", name_at(arrays, *array)),
    }
}

// Why a file spells no placement.
fn placement_message(fault: &NoPlacement) -> Message<'_>
    ensures { bytes_of result ≡ message_of_placement fault.now }
{
    match fault {
        NoPlacement::NotToml => text(b"placement: not TOML"),
        NoPlacement::Shape { rule } => number(b"placement: shape", *rule as u64),
        NoPlacement::NoArray { name } => named(b"placement: no array", name.items()),
        NoPlacement::NoPlace { arrays, array } => {
            named(b"placement: no place for", name_at(arrays, *array))
        }
        NoPlacement::NoSwitch { arrays, array } => {
            named(b"placement: no switch for", name_at(arrays, *array))
        }
        NoPlacement::Apart { arrays, a, b } => Message::Names {
            text: b"placement: apart",
            from: name_at(arrays, *a),
            to: name_at(arrays, *b),
        },
    }
}

fn rule_text(rule: Rule) -> &'static [u8]
    ensures { result.now ≡ rule_text rule }
{
    match rule {
        Rule::Link => b"link",
        Rule::Loop => b"loop",
        Rule::Kind => b"kind",
        Rule::Owner => b"owner",
        Rule::Rise => b"rise",
        Rule::Order => b"order",
        Rule::Missing => b"missing",
        Rule::Spare => b"spare",
    }
}

// Why a file spells no valid tables.
fn tables_message(fault: NoTables) -> Message<'static>
    ensures { bytes_of result ≡ message_of_tables fault }
{
    match fault {
        NoTables::Line { line } => number(b"tables: line", line),
        NoTables::Broken { rule, line } => Message::Counted {
            text: b"tables: rule",
            name: rule_text(rule),
            between: b" line ",
            number: line,
        },
    }
}

impl Refusal<'_> {
    /// The exit status, as the table of statuses has it. Takes no memory.
    pub fn status(&self) -> u8
        ensures { result ≡ status_of (Err self.now) }
    {
        match self {
            Refusal::Usage => 1,
            Refusal::Read { .. } => 2,
            Refusal::Write => 3,
            Refusal::Syntax { .. } => 4,
            Refusal::Naming { .. } => 5,
            Refusal::Limit { .. } => 6,
            Refusal::Topology { .. } => 7,
            Refusal::Unreachable { .. } => 8,
            Refusal::Placement { .. } => 9,
            Refusal::Race { .. } => 10,
            Refusal::Tables { .. } => 11,
            Refusal::Packets { .. } => 12,
            Refusal::ReadChange { .. } => 2,
            Refusal::Schedule { .. } => 13,
            Refusal::Changes { .. } => 20,
            Refusal::NoMemory => 14,
            Refusal::Undefined { .. } => 15,
            Refusal::VersionOne => 16,
            Refusal::Declarations => 17,
            Refusal::Differ { .. } => 18,
            Refusal::Demand { .. } => 19,
        }
    }

    // The message, before it is written.
    fn message(&self) -> Message<'_>
        ensures { bytes_of result ≡ message_of (Err self.now) }
    {
        match self {
            Refusal::Usage => text(b"usage"),
            Refusal::Read { name } => named(b"cannot read", name),
            Refusal::Write => text(b"cannot write"),
            Refusal::Syntax { fault, spot } => Message::At {
                spot: *spot,
                text: syntax_text(*fault),
            },
            Refusal::Naming { fault, spot } => Message::At {
                spot: *spot,
                text: naming_text(*fault),
            },
            Refusal::Limit { which, count } => Message::Counted {
                text: b"limit:",
                name: which_text(*which),
                between: b" ",
                number: *count,
            },
            Refusal::Topology { fault } => topology_message(fault),
            Refusal::Unreachable { switches, a, b } => Message::Names {
                text: b"unreachable:",
                from: name_at(switches, *a),
                to: name_at(switches, *b),
            },
            Refusal::Race { text } => Message::Whole { text },
            Refusal::Declarations => text(b"declarations differ"),
            Refusal::Differ { text } => Message::Whole { text },
            Refusal::Packets { line } => number(b"packets: line", *line),
            Refusal::NoMemory => text(b"out of memory"),
            Refusal::Undefined { packet } => number(b"undefined: packet", *packet),
            Refusal::Demand { fault } => demand_message(fault),
            Refusal::Placement { fault } => placement_message(fault),
            Refusal::Tables { fault } => tables_message(*fault),
            Refusal::Schedule { line } => number(b"schedule: line", *line),
            Refusal::Changes { line } => number(b"changes: line", *line),
            Refusal::ReadChange { name } => named(b"cannot read", name.items()),
            Refusal::VersionOne => text(b"tables: version 1"),
        }
    }

    /// Writes the message, one line, or the lines of a race or a difference. It takes no memory.
    ///
    /// # Errors
    ///
    /// `WriteFailed` where the sink failed; some first bytes went out then, and no others.
    pub fn print<E: Sink>(&self, err: &mut E) -> Result<(), WriteFailed>
        ensures ok { OnOk result (Appends (E.taken err.old) (E.taken err.new) (message_of (Err self.now))) }
        ensures err { OnErr result (AppendsPart (E.taken err.old) (E.taken err.new) (message_of (Err self.now))) }
        ensures cause { HasCause (E.faults err.old) (E.faults err.new) result }
    {
        write(err, self.message())
    }
}

impl From<NoMemory> for Refusal<'_> {
    ghost from_gives = { λ _ e. e ≡ refused.NoMemory };

    fn from(_: NoMemory) -> Self {
        Refusal::NoMemory
    }
}

impl From<WriteFailed> for Refusal<'_> {
    ghost from_gives = { λ _ e. e ≡ refused.Write };

    fn from(_: WriteFailed) -> Self {
        Refusal::Write
    }
}
