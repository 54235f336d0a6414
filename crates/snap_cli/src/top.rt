//! The top call.

ghost use Rattle.std.specs.Prelude.{◌≡◌, ◌⊎◌, ◌≤◌, ℕ, List, [], None, Some, IfSome, IsErrOf};
ghost use Rattle.std.specs.Io.KnownBytes.{Appends};
ghost use Rattle.snap_io.specs.Causes.{NoneFell, Rose};
ghost use Rattle.snap_words.specs.Commands.{command_of};
ghost use Rattle.snap_words.specs.Said.{bytes_of};
ghost use Rattle.snap_cli.specs.Answers.{Answers, MeetsWords, OnDemo};
ghost use Rattle.snap_cli.specs.Causes.{ReadsAndWrites};
ghost use Rattle.snap_cli.specs.Refusals.{status_of};
ghost use Rattle.snap_cli.specs.Statuses.{CanAnswer};

use crate::refusal::Refusal;
use crate::{check, compile, demo, deps, equal, obs, place, routes, trace};
use snap_io::{Shelf, Sink};
use snap_words::calls::command;
use snap_words::command::Command;
use snap_words::fault::WordsFault;
use std::alloc::Global;
use std::thread::Threads;

/// Does what the words ask, with the files of the shelf: it writes the output to `out`, and a refusal's message to
/// `err`, and answers the status (`README.md` lists them). A fault of `err` changes neither status nor output. Threads of
/// `rt` are started for the workers of `trace` alone, and joined before the call returns.
pub fn snap<R: Threads + Sync, S: Shelf, O: Sink, E: Sink>(
    rt: &R,
    alloc: Global,
    words: &[Vec<u8>],
    shelf: &mut S,
    out: &mut O,
    err: &mut E,
) -> u8
    // The status, the output and the message are what the words and the files deserve.
    ensures answer { Answers (bytes_of words.now) (S.files shelf.old) result (S.faults shelf.old) (S.faults shelf.new)
        (O.faults out.old) (O.faults out.new) (O.taken out.old) (O.taken out.new)
        (E.faults err.old) (E.faults err.new) (E.taken err.old) (E.taken err.new) }

    // `demo` reads no file: what it deserves on any files is so, also where the shelf tells none.
    ensures demo { OnDemo (bytes_of words.now) (λ files.
        Answers (bytes_of words.now) (Some files) result (S.faults shelf.old) (S.faults shelf.new)
        (O.faults out.old) (O.faults out.new) (O.taken out.old) (O.taken out.new)
        (E.faults err.old) (E.faults err.new) (E.taken err.old) (E.taken err.new)) }

    // These hold for shelves and sinks that tell nothing too.
    ensures statuses { IfSome (command_of (bytes_of words.now)) (λ command. CanAnswer command result) }
    ensures usage { result ≡ 1 → command_of (bytes_of words.now) ≡ None }
    ensures usage_comes { command_of (bytes_of words.now) ≡ None → (result ≡ 1) ⊎ (result ≡ 14) }
    ensures nothing { result ≡ 1 → Appends (O.taken out.old) (O.taken out.new) [] }
    ensures read { result ≡ 2 → (name : List ℕ) × Rose (S.faults shelf.old name) (S.faults shelf.new name) }
    ensures write { result ≡ 3 → Rose (O.faults out.old) (O.faults out.new) }

    // The shelf's files stay, and no count of faults falls: so a call can be cited beside the next one over the same shelf.
    ensures files { S.files shelf.new ≡ S.files shelf.old }
    ensures later { NoneFell (S.faults shelf.old) (S.faults shelf.new) }
    ensures out_later { O.faults out.old ≤ O.faults out.new }
    ensures err_later { E.faults err.old ≤ E.faults err.new }
{
    let ending = run(rt, alloc, words, shelf, out);
    match ending {
        Ok(()) => 0,
        Err(refusal) => {
            let _ = refusal.print(err);
            refusal.status()
        }
    }
}

// The commands, each by its words.
fn run<'a, R: Threads + Sync, S: Shelf, O: Sink>(
    rt: &R,
    alloc: Global,
    words: &'a [Vec<u8>],
    shelf: &mut S,
    out: &mut O,
) -> Result<(), Refusal<'a>>
    ensures meets { IfSome (S.files shelf.old) (λ files.
        MeetsWords files (bytes_of words.entry.now) result (O.taken out.old) (O.taken out.new)) }
    ensures usage_comes { command_of (bytes_of words.entry.now) ≡ None → IsErrOf result Refusal.Usage ⊎ IsErrOf result Refusal.NoMemory }
    ensures nothing { command_of (bytes_of words.entry.now) ≡ None → Appends (O.taken out.old) (O.taken out.new) [] }
    ensures devices { ReadsAndWrites (S.files shelf.old) (S.files shelf.new) (S.faults shelf.old) (S.faults shelf.new)
        (O.faults out.old) (O.faults out.new) result }
    ensures statuses { IfSome (command_of (bytes_of words.entry.now)) (λ command. CanAnswer command (status_of result)) }
    ensures demo { OnDemo (bytes_of words.entry.now) (λ files.
        MeetsWords files (bytes_of words.entry.now) result (O.taken out.old) (O.taken out.new)) }
{
    match command(alloc, words) {
        Ok(Command::Obs { program, packets }) => obs::report(alloc, program, packets, shelf, out),
        Ok(Command::Deps { program }) => deps::report(alloc, program, shelf, out),
        Ok(Command::Check { program }) => check::report(alloc, program, shelf, out),
        Ok(Command::Equal { left, right }) => equal::report(alloc, left, right, shelf, out),
        Ok(Command::Routes { topology }) => routes::report(alloc, topology, shelf, out),
        Ok(
            Command::Place {
                program,
                topology,
                demand,
            },
        ) => place::report(alloc, program, topology, demand, shelf, out),
        Ok(
            Command::Compile {
                program,
                topology,
                placement,
                on_demand,
            },
        ) => compile::report(alloc, program, topology, placement, on_demand, shelf, out),
        Ok(
            Command::Trace {
                tables,
                packets,
                hops,
                order,
            },
        ) => trace::report(rt, alloc, tables, packets, hops, order, shelf, out),
        Ok(Command::Demo { switches }) => demo::report(alloc, switches, out),
        Err(WordsFault::Usage) => Err(Refusal::Usage),
        Err(WordsFault::NoMemory) => Err(Refusal::NoMemory),
    }
}
