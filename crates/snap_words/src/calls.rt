//! From the words of a command line to its command.

ghost use Rattle.std.specs.Prelude.{◌≡◌, ◌==◌, ◌-◌, IfErr, IfOk, IsTrue, None, Some, drop, false, length, option_map};
ghost use Rattle.std.specs.List.{ends_with, list_all};
ghost use Rattle.std.specs.Str.{is_utf8};
ghost use Rattle.snap_words.specs.Commands.{check, command_for, command_of, compile_for, demo_for, deps, equal, has_options, has_trace_options, names_alone, obs, order_of, place, plain_command, rounds, routes, trace_for, with_one, with_three, with_two};
ghost use Rattle.snap_words.specs.Counts.{count_of};
ghost use Rattle.snap_words.specs.Said.{are_among, bytes_of, has_values_among, is_among, lent, said, said_among, shown, shown_order};

use crate::command::{Command, Order};
use crate::count::count_of;
use crate::fault::WordsFault;
use crate::told::{self, Arguments};
use std::alloc::Global;

/// The command that the words behind the program's name give, with its files' names lent from the
/// words. `Usage` exactly where they are of no command's form.
///
/// # Errors
///
/// `Usage` exactly where the words are of no command's form; `NoMemory` for want of memory.
pub fn command<'a>(alloc: Global, words: &'a [Vec<u8>]) -> Result<Command<'a>, WordsFault>
    ensures ok { IfOk result (λ c. command_of (bytes_of words.entry.now) ≡ Some (shown c)) }
    ensures usage { IfErr result (λ e. e ≡ WordsFault.Usage
        → command_of (bytes_of words.entry.now) ≡ None) }
{
    let texts = texts(alloc, words)?;
    let Some((first, rest)) = texts.as_slice().split_first() else {
        return Err(WordsFault::Usage);
    };
    let told = told::read(alloc, rest)?;
    match command_for(words, *first, &told) {
        Some(command) => Ok(command),
        None => Err(WordsFault::Usage),
    }
}

/// The words as texts. `Usage` where one is not UTF-8.
fn texts<'a>(alloc: Global, words: &'a [Vec<u8>]) -> Result<Vec<&'a str>, WordsFault>
    ensures same { IfOk result (λ v. lent v.items ≡ bytes_of words.entry.now) }
    ensures ok { IfOk result (λ _. IsTrue (list_all is_utf8 (bytes_of words.entry.now))) }
    ensures usage { IfErr result (λ e. e ≡ WordsFault.Usage
        → list_all is_utf8 (bytes_of words.entry.now) ≡ false) }
{
    let mut texts = Vec::with_capacity(alloc, words.len())?;
    for word in words {
        texts.push(text(word.as_slice())?)?;
    }
    Ok(texts)
}

/// A word as text.
fn text(word: &[u8]) -> Result<&str, WordsFault>
    ensures same { IfOk result (λ s. s.now ≡ word.entry.now) }
    ensures ok { IfOk result (λ _. IsTrue (is_utf8 word.entry.now)) }
    ensures usage { IfErr result (λ _. is_utf8 word.entry.now ≡ false) }
{
    match str::from_utf8(word) {
        Ok(text) => Ok(text),
        Err(_) => Err(WordsFault::Usage),
    }
}

/// The command of a first word and of what the others say. Options are of `trace` and `compile` alone.
fn command_for<'a>(words: &'a [Vec<u8>], first: &str, told: &Arguments) -> Option<Command<'a>>
    requires { IsTrue (said_among (bytes_of words.now) (said told.now)) }
    ensures { option_map shown result ≡ command_for first.now (said told.now) }
{
    match first {
        "trace" => trace(words, told),
        "compile" => compile(words, told),
        _ => plain_command(words, first, names_alone(told)?),
    }
}

/// The command of a first word and of the names behind it, of those that have no options.
fn plain_command<'a>(words: &'a [Vec<u8>], first: &str, names: &[&str]) -> Option<Command<'a>>
    requires { IsTrue (are_among (bytes_of words.now) (lent names.now)) }
    ensures { option_map shown result ≡ plain_command first.now (lent names.now) }
{
    match first {
        "obs" => obs(words, names),
        "deps" => deps(words, names),
        "check" => check(words, names),
        "equal" => equal(words, names),
        "routes" => routes(words, names),
        "place" => place(words, names),
        "demo" => demo(names),
        _ => None,
    }
}

/// The names behind a command that has no options.
fn names_alone<'t>(told: &'t Arguments) -> Option<&'t [&'t str]>
    ensures { option_map (λ s. lent s.now) result ≡ names_alone (said told.entry.now) }
{
    if has_options(told) {
        None
    } else {
        Some(told.names.as_slice())
    }
}

/// Whether an option was there.
fn has_options(told: &Arguments) -> bool
    ensures { result ≡ has_options (said told.now) }
{
    told.on_demand || has_trace_options(told)
}

/// Whether an option of `trace` was there.
fn has_trace_options(told: &Arguments) -> bool
    ensures { result ≡ has_trace_options (said told.now) }
{
    told.hops
        || told.ordered
        || told.schedule.is_some()
        || told.changes.is_some()
        || told.workers.is_some()
}

fn obs<'a>(words: &'a [Vec<u8>], names: &[&str]) -> Option<Command<'a>>
    requires { IsTrue (are_among (bytes_of words.now) (lent names.now)) }
    ensures { option_map shown result ≡ with_two obs (lent names.now) }
{
    match names {
        [program, packets] => Some(Command::Obs {
            program: word(words, program),
            packets: word(words, packets),
        }),
        _ => None,
    }
}

fn deps<'a>(words: &'a [Vec<u8>], names: &[&str]) -> Option<Command<'a>>
    requires { IsTrue (are_among (bytes_of words.now) (lent names.now)) }
    ensures { option_map shown result ≡ with_one deps (lent names.now) }
{
    match names {
        [program] => Some(Command::Deps {
            program: word(words, program),
        }),
        _ => None,
    }
}

fn check<'a>(words: &'a [Vec<u8>], names: &[&str]) -> Option<Command<'a>>
    requires { IsTrue (are_among (bytes_of words.now) (lent names.now)) }
    ensures { option_map shown result ≡ with_one check (lent names.now) }
{
    match names {
        [program] => Some(Command::Check {
            program: word(words, program),
        }),
        _ => None,
    }
}

fn equal<'a>(words: &'a [Vec<u8>], names: &[&str]) -> Option<Command<'a>>
    requires { IsTrue (are_among (bytes_of words.now) (lent names.now)) }
    ensures { option_map shown result ≡ with_two equal (lent names.now) }
{
    match names {
        [left, right] => Some(Command::Equal {
            left: word(words, left),
            right: word(words, right),
        }),
        _ => None,
    }
}

fn routes<'a>(words: &'a [Vec<u8>], names: &[&str]) -> Option<Command<'a>>
    requires { IsTrue (are_among (bytes_of words.now) (lent names.now)) }
    ensures { option_map shown result ≡ with_one routes (lent names.now) }
{
    match names {
        [topology] => Some(Command::Routes {
            topology: word(words, topology),
        }),
        _ => None,
    }
}

fn place<'a>(words: &'a [Vec<u8>], names: &[&str]) -> Option<Command<'a>>
    requires { IsTrue (are_among (bytes_of words.now) (lent names.now)) }
    ensures { option_map shown result ≡ with_three place (lent names.now) }
{
    match names {
        [program, topology, demand] => Some(Command::Place {
            program: word(words, program),
            topology: word(words, topology),
            demand: word(words, demand),
        }),
        _ => None,
    }
}

fn demo<'a>(names: &[&str]) -> Option<Command<'a>>
    ensures { option_map shown result ≡ demo_for (lent names.now) }
{
    match names {
        [count] => Some(Command::Demo {
            switches: count_of(count)?,
        }),
        _ => None,
    }
}

fn compile<'a>(words: &'a [Vec<u8>], told: &Arguments) -> Option<Command<'a>>
    requires { IsTrue (said_among (bytes_of words.now) (said told.now)) }
    ensures { option_map shown result ≡ compile_for (said told.now) }
{
    if has_trace_options(told) {
        return None;
    }
    match told.names.as_slice() {
        [program, topology, placement] => Some(Command::Compile {
            program: word(words, program),
            topology: word(words, topology),
            placement: word(words, placement),
            on_demand: told.on_demand,
        }),
        _ => None,
    }
}

fn trace<'a>(words: &'a [Vec<u8>], told: &Arguments) -> Option<Command<'a>>
    requires { IsTrue (said_among (bytes_of words.now) (said told.now)) }
    ensures { option_map shown result ≡ trace_for (said told.now) }
{
    if told.on_demand {
        return None;
    }
    let order = order(words, told)?;
    match told.names.as_slice() {
        [tables, packets] => Some(Command::Trace {
            tables: word(words, tables),
            packets: word(words, packets),
            hops: told.hops,
            order,
        }),
        _ => None,
    }
}

/// The order of a run, where its options go together.
fn order<'a>(words: &'a [Vec<u8>], told: &Arguments) -> Option<Order<'a>>
    requires { IsTrue (has_values_among (bytes_of words.now) (said told.now)) }
    ensures { option_map shown_order result ≡ order_of (said told.now) }
{
    match (told.ordered, told.schedule, told.changes, told.workers) {
        (false, None, None, None) => Some(Order::Plain),
        (false, Some(file), None, None) => Some(Order::Schedule {
            file: word(words, file),
        }),
        (false, None, Some(file), None) => Some(Order::Changes {
            file: word(words, file),
        }),
        (true, None, None, None) => Some(Order::InOrder { schedule: None }),
        (true, Some(file), None, None) => Some(Order::InOrder {
            schedule: Some(word(words, file)),
        }),
        (true, None, None, Some(count)) => rounds(count),
        _ => None,
    }
}

/// Rounds that so many workers make.
fn rounds<'a>(count: &str) -> Option<Order<'a>>
    ensures { option_map shown_order result ≡ option_map rounds (count_of count.now) }
{
    Some(Order::Rounds {
        workers: count_of(count)?,
    })
}

/// The word, or the end of one, that a name was read from: `clap` lends its own texts, and an answer lends the
/// words.
fn word<'a>(words: &'a [Vec<u8>], name: &str) -> &'a [u8]
    requires { IsTrue (is_among (bytes_of words.now) name.now) }
    ensures { result.now ≡ name.now }
{
    let word = words
        .iter()
        .find(|word| has_end(word.as_slice(), name))
        .unwrap();
    end_of(word.as_slice(), name.len())
}

/// Whether the word ends with the name.
fn has_end(word: &[u8], name: &str) -> bool
    ensures { result ≡ ends_with ◌==◌ word.now name.now }
{
    word.ends_with(name.as_bytes())
}

/// The last bytes of a word, as many as `count` says, or all.
fn end_of(word: &[u8], count: usize) -> &[u8]
    ensures { result.now ≡ drop (length word.entry.now - count) word.entry.now }
{
    &word[word.len().saturating_sub(count)..]
}
