//! The command `deps`: the dependencies of a program's arrays, and their groups.

ghost use Rattle.std.specs.Prelude.{◌≡◌, ◌++◌, IfOk, IfSome, OnOk};
ghost use Rattle.std.specs.List.{flat_map};
ghost use Rattle.snap_core.specs.Programs.{IsBounded};
ghost use Rattle.snap_words.specs.Commands.{deps};
ghost use Rattle.snap_cli.specs.Deps.{HasOneText, IsTextOf, MeetsText, dep_line, group_line, groups_text, member_text};
ghost use Rattle.snap_cli.specs.Causes.{OnlyWrites, ReadsAndWrites};
ghost use Rattle.snap_cli.specs.Deserved.{Meets};
ghost use Rattle.snap_cli.specs.Statuses.{EndsWith, statuses_of};

use crate::program::load_program;
use crate::refusal::{Refusal, name_at};
use snap_core::NoMemory;
use snap_core::lists::Names;
use snap_core::program::Program;
use snap_dep::calls::{dependencies, groups};
use snap_dep::groups::Groups;
use snap_dep::laws::{has_one_rank, tied_is_equivalence};
use snap_io::{Shelf, Sink, write_whole};
use std::alloc::Global;

/// A program has but one text.
pub fn has_one_text()
    ensures { HasOneText }
{
    tied_is_equivalence();
    has_one_rank();
}

/// Writes the dependencies of a program's arrays, and their groups.
pub(crate) fn report<'a, S: Shelf, O: Sink>(
    alloc: Global,
    program: &'a [u8],
    shelf: &mut S,
    out: &mut O,
) -> Result<(), Refusal<'a>>
    ensures meets { IfSome (S.files shelf.old) (λ files.
        Meets files (deps program.entry.now) result (O.taken out.old) (O.taken out.new)) }
    ensures devices { ReadsAndWrites (S.files shelf.old) (S.files shelf.new) (S.faults shelf.old) (S.faults shelf.new)
        (O.faults out.old) (O.faults out.new) result }
    ensures statuses { EndsWith (statuses_of (deps program.entry.now)) result }
{
    let program = load_program(alloc, shelf, program)?;
    write_text(alloc, &program, out)
}

// Writes the text of a program that was read.
fn write_text<'a, O: Sink>(alloc: Global, program: &Program, out: &mut O) -> Result<(), Refusal<'a>>
    requires { IsBounded program.now }
    ensures meets { MeetsText program.now result (O.taken out.old) (O.taken out.new) }
    ensures devices { OnlyWrites (O.faults out.old) (O.faults out.new) result }
{
    match text_of(alloc, program) {
        Ok(text) => match write_whole(out, &text) {
            Ok(()) => Ok(()),
            Err(_) => Err(Refusal::Write),
        },
        Err(_) => Err(Refusal::NoMemory),
    }
}

// The text of a program.
fn text_of(alloc: Global, program: &Program) -> Result<Vec<u8>, NoMemory>
    requires { IsBounded program.now }
    ensures { IfOk result (λ text. IsTextOf program.now text.items) }
{
    let pairs = dependencies(alloc, program)?;
    let groups = groups(alloc, program)?;
    let mut text = Vec::new(alloc);
    put_dependencies(&mut text, &program.arrays, &pairs)?;
    put_groups(&mut text, &program.arrays, &groups)?;
    text.extend_from_slice(b"end\n")?;
    Ok(text)
}

// Puts a line for each dependency behind the buffer.
fn put_dependencies(out: &mut Vec<u8>, names: &Names, pairs: &[(u16, u16)]) -> Result<(), NoMemory>
    ensures { OnOk result (out.new.items ≡ out.old.items ++ flat_map (dep_line names.now) pairs.now) }
{
    for pair in pairs {
        put_dependency(out, names, *pair)?;
    }
    Ok(())
}

// Puts the line of a dependency.
fn put_dependency(out: &mut Vec<u8>, names: &Names, pair: (u16, u16)) -> Result<(), NoMemory>
    ensures { OnOk result (out.new.items ≡ out.old.items ++ dep_line names.now pair) }
{
    out.extend_from_slice(b"dep ")?;
    out.extend_from_slice(name_at(names, pair.0))?;
    out.push(b' ')?;
    out.extend_from_slice(name_at(names, pair.1))?;
    out.push(b'\n')?;
    Ok(())
}

// Puts a line for each group, by rank.
fn put_groups(out: &mut Vec<u8>, names: &Names, groups: &Groups) -> Result<(), NoMemory>
    ensures { OnOk result (out.new.items ≡ out.old.items ++ groups_text names.now groups.now) }
{
    for rank in 0..groups.order().len() {
        put_group(out, names, groups, rank)?;
    }
    Ok(())
}

// Puts the line of the group of a rank.
fn put_group(out: &mut Vec<u8>, names: &Names, groups: &Groups, rank: usize) -> Result<(), NoMemory>
    ensures { OnOk result (out.new.items ≡ out.old.items ++ group_line names.now groups.now rank) }
{
    out.extend_from_slice(b"group")?;
    for var in 0..groups.count() as u16 {
        if groups.rank(var) == rank {
            put_member(out, names, var)?;
        }
    }
    out.push(b'\n')?;
    Ok(())
}

// Puts an array of a group.
fn put_member(out: &mut Vec<u8>, names: &Names, var: u16) -> Result<(), NoMemory>
    ensures { OnOk result (out.new.items ≡ out.old.items ++ member_text names.now var) }
{
    out.push(b' ')?;
    out.extend_from_slice(name_at(names, var))?;
    Ok(())
}
