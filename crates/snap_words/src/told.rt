//! What the words behind a command say: options and names, read with `clap`.

ghost use Rattle.std.specs.Prelude.{◌≡◌, ◌≢◌, [], IfErr, IfOk, IsTrue, None, Some, codes, false, option_map, unwrap_or};
ghost use Rattle.std.specs.List.{list_all};
ghost use Rattle.std.specs.Str.{is_utf8};
ghost use Rattle.clap.specs.Words.{all_of, app_of, fault_of, found_of, kind_of, matches_of, rows_of, rule_of};
ghost use Rattle.snap_words.specs.Clap.{app, flag_rule, option_rule, with_flags, with_options};
ghost use Rattle.snap_words.specs.Said.{lent, said};
ghost use Rattle.snap_words.specs.Words.{has_names, has_values, is_name, is_name_or_none, told_by};

use crate::fault::WordsFault;
use clap::error::ErrorKind;
use clap::{Arg, ArgAction, ArgMatches, Command, Error};
use std::alloc::{AllocError, Global};

/// What words say.
#[derive(Drop)]
pub struct Arguments<'a> {
    /// `--hops` was there.
    pub hops: bool,
    /// `--ordered` was there.
    pub ordered: bool,
    /// `--on-demand` was there.
    pub on_demand: bool,
    /// The file of `--schedule`.
    pub schedule: Option<&'a str>,
    /// The file of `--changes`.
    pub changes: Option<&'a str>,
    /// The number of `--workers`.
    pub workers: Option<&'a str>,
    /// The names of files, in their order.
    pub names: Vec<&'a str>,
}

/// What the words behind a command say. `Usage` where they are not of the form: an option that is
/// unknown or comes twice, or a name or a value that is empty or begins with `-`.
pub(crate) fn read<'a>(alloc: Global, words: &'a [&'a str]) -> Result<Arguments<'a>, WordsFault>
    requires { IsTrue (list_all is_utf8 (lent words.now)) }
    ensures ok { IfOk result (λ t. told_by (lent words.entry.now) ≡ Some (said t)) }
    ensures usage { IfErr result (λ e. e ≡ WordsFault.Usage → told_by (lent words.entry.now) ≡ None) }
{
    let matches = matches_of(alloc, words)?;
    let told = Arguments {
        hops: matches.get_flag("hops"),
        ordered: matches.get_flag("ordered"),
        on_demand: matches.get_flag("on-demand"),
        schedule: matches.get_str("schedule"),
        changes: matches.get_str("changes"),
        workers: matches.get_str("workers"),
        names: names_in(alloc, &matches)?,
    };
    if has_names(&told) {
        Ok(told)
    } else {
        Err(WordsFault::Usage)
    }
}

/// What `clap` finds in the words.
fn matches_of<'a>(alloc: Global, words: &'a [&'a str]) -> Result<ArgMatches<'a>, WordsFault>
    ensures ok { IfOk result (λ m. (fault_of app (lent words.entry.now) ≡ [])
        × (rows_of (found_of m) ≡ matches_of app (lent words.entry.now))) }
    ensures usage { IfErr result (λ e. e ≡ WordsFault.Usage → fault_of app (lent words.entry.now) ≢ []) }
{
    match flat(alloc)?.try_get_matches_from(words) {
        Ok(matches) => Ok(matches),
        Err(error) => Err(words_fault(&error)),
    }
}

/// The one flat command for all: options and names, in any order.
fn flat<'a>(alloc: Global) -> Result<Command<'a>, AllocError>
    ensures { IfOk result (λ c. app_of c ≡ app) }
{
    let name = Arg::new(alloc, "name").action(ArgAction::Append);
    with_options(alloc)?.arg(name)
}

/// The options alone.
fn with_options<'a>(alloc: Global) -> Result<Command<'a>, AllocError>
    ensures { IfOk result (λ c. app_of c ≡ with_options) }
{
    with_flags(alloc)?
        .arg(option(alloc, "schedule"))?
        .arg(option(alloc, "changes"))?
        .arg(option(alloc, "workers"))
}

/// The options that have no value.
fn with_flags<'a>(alloc: Global) -> Result<Command<'a>, AllocError>
    ensures { IfOk result (λ c. app_of c ≡ with_flags) }
{
    Command::new(alloc, "snapc")
        .no_binary_name(true)
        .disable_help_flag(true)
        .arg(flag(alloc, "hops"))?
        .arg(flag(alloc, "ordered"))?
        .arg(flag(alloc, "on-demand"))
}

/// An option without a value.
fn flag<'a>(alloc: Global, name: &'a str) -> Arg<'a>
    ensures rule { rule_of result ≡ flag_rule name.entry.now }
    ensures local { result.global ≡ false }
{
    Arg::new(alloc, name).long(name).action(ArgAction::SetTrue)
}

/// An option with a value.
fn option<'a>(alloc: Global, name: &'a str) -> Arg<'a>
    ensures rule { rule_of result ≡ option_rule name.entry.now }
    ensures local { result.global ≡ false }
{
    Arg::new(alloc, name).long(name).action(ArgAction::Set)
}

/// `clap`'s errors are usage, but for want of memory.
fn words_fault(error: &Error) -> WordsFault
    ensures { result ≡ WordsFault.Usage → kind_of error.now ≢ ErrorKind.OutOfMemory }
{
    match error.kind() {
        ErrorKind::OutOfMemory => WordsFault::NoMemory,
        _ => WordsFault::Usage,
    }
}

/// The names that `clap` found.
fn names_in<'a>(alloc: Global, matches: &ArgMatches<'a>) -> Result<Vec<&'a str>, AllocError>
    ensures { IfOk result (λ v. lent v.items
        ≡ unwrap_or (all_of (codes "name") (rows_of (found_of matches.now))) []) }
{
    match matches.get_raw("name") {
        Some(names) => Vec::from_slice(alloc, names),
        None => Ok(Vec::new(alloc)),
    }
}

/// Whether all names and values are. `clap` takes any word behind `--`, and an empty one.
fn has_names(told: &Arguments) -> bool
    ensures { result ≡ has_names (said told.now) }
{
    all_names(told.names.as_slice()) && has_values(told)
}

fn has_values(told: &Arguments) -> bool
    ensures { result ≡ has_values (said told.now) }
{
    is_name_or_none(told.schedule) && is_name_or_none(told.changes) && is_name_or_none(told.workers)
}

fn all_names(names: &[&str]) -> bool
    ensures { result ≡ list_all is_name (lent names.now) }
{
    names.iter().all(|name| is_name(name))
}

fn is_name_or_none(value: Option<&str>) -> bool
    ensures { result ≡ is_name_or_none (option_map (λ s. s.now) value.entry) }
{
    match value {
        Some(name) => is_name(name),
        None => true,
    }
}

/// Whether a word is a name or a value: not empty, and with no `-` in front.
fn is_name(word: &str) -> bool
    ensures { result ≡ is_name word.now }
{
    !word.is_empty() && !word.starts_with('-')
}
