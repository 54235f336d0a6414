//! The commands, as their words name them.

use crate::count::Count;

/// In which order `trace` runs packets. A file's name is text that is not empty and does not begin with `-`.
#[derive(Clone, Copy)]
pub enum Order<'a> {
    /// One packet after the other, each to its end.
    Plain,
    /// The events of a file, line by line (`--schedule`).
    Schedule { file: &'a [u8] },
    /// One packet after the other, between changes of tables by the lines of a file (`--changes`).
    Changes { file: &'a [u8] },
    /// Each rank's packets in their turn (`--ordered`): one packet after the other, or the events of a file (`--schedule`).
    InOrder { schedule: Option<&'a [u8]> },
    /// The same by rounds, in which so many workers make the steps (`--ordered` with `--workers`).
    Rounds { workers: Count },
}

/// A command and the files that it names. A name is text that is not empty and does not begin with `-`.
#[derive(Clone, Copy)]
pub enum Command<'a> {
    /// The report of one big switch: a program and its packets.
    Obs {
        program: &'a [u8],
        packets: &'a [u8],
    },
    /// The dependencies and groups of a program.
    Deps {
        program: &'a [u8],
    },
    /// Whether the parts of a program race on some store and packet.
    Check {
        program: &'a [u8],
    },
    /// Whether two programs mean the same.
    Equal {
        left: &'a [u8],
        right: &'a [u8],
    },
    /// The distances and next hops of a topology.
    Routes {
        topology: &'a [u8],
    },
    /// The placement of least cost: a program, a topology and a demand.
    Place {
        program: &'a [u8],
        topology: &'a [u8],
        demand: &'a [u8],
    },
    /// The tables of a program: a program, a topology and a placement, and whether a packet goes only where its
    /// program needs it (`--on-demand`).
    Compile {
        program: &'a [u8],
        topology: &'a [u8],
        placement: &'a [u8],
        on_demand: bool,
    },
    /// The report of the network that runs tables: tables and packets, whether each hop is told (`--hops`), and
    /// the order of the run.
    Trace {
        tables: &'a [u8],
        packets: &'a [u8],
        hops: bool,
        order: Order<'a>,
    },
    /// The demonstration with so many switches.
    Demo {
        switches: Count,
    },
}
