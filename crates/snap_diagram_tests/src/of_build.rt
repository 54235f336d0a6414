//! Diagrams of programs beside evaluation.

ghost use Rattle.snap_core.specs.Programs.{IsWellFormed};
ghost use Rattle.snap_diagrams.specs.Picks.{IsWellFormedDiagram};

use crate::agreement::agrees;
use crate::given::{Made, diagram, leaf_at, program};
use snap_build::building::{BuildFault, build};
use snap_core::NoMemory;
use snap_core::packet::Packet;
use snap_core::policy::Pol;
use snap_core::program::Program;
use snap_core::store::Store;
use snap_dep::calls::groups;
use snap_diagrams::leaf::Leaf;
use std::alloc::Global;
use std::process::Abort;
use std::test::Fail;

// What the small programs are made of: tests, assignments and updates.
const PARTS: &[&str] = &[
    "id",
    "drop",
    "f = 1",
    "s[f] = 1",
    "f = 2 | t[g] = f",
    "!(s[1] = 2) & g = 1",
    "f <- 2",
    "f <- g",
    "s[f] <- g",
    "s[f]++",
    "s[1] -= 2",
    "t[g] <- 1",
];

// How two of them make a program: what stands before, between and behind them.
type Form = (&'static str, &'static str, &'static str);

const FORMS: &[Form] = &[
    ("(", ") + (", ")"),
    ("(", "); (", ")"),
    ("if s[1] = 1 | f = 2 then (", ") else (", ")"),
    ("atomic((", ") + g <- 1); (", ")"),
];

// One of 81 stores and packets: two places of each array, and the fields f and g.
fn input(alloc: Global, number: u64) -> Result<(Store, Packet), NoMemory> {
    let (first, second) = (number % 3, number / 3 % 3);
    let mut store = Store::new(alloc);
    store.put(0, &[1], first)?;
    store.put(0, &[2], second)?;
    store.put(1, &[1], second)?;
    store.put(1, &[2], first)?;
    let comps = vec![in alloc; 7, 0, number / 9 % 3, number / 27 % 3]?;
    Ok((store, Packet::new(comps)))
}

// Whether a diagram and evaluation agree on a store and a packet.
fn agrees_on(
    alloc: Global,
    d: &Made,
    pol: &Pol,
    store: &Store,
    packet: &Packet,
) -> Result<bool, Fail>
    requires { IsWellFormedDiagram d.now.groups d.now.ctx d.now.nodes d.now.root }
{
    let leaf = leaf_at(d, store, packet)?;
    agrees(alloc, leaf, pol, store, packet)
}

// Whether they agree on this one of the 81.
fn agrees_at(alloc: Global, d: &Made, pol: &Pol, number: u64) -> Result<bool, Fail>
    requires { IsWellFormedDiagram d.now.groups d.now.ctx d.now.nodes d.now.root }
{
    let (store, packet) = input(alloc, number)?;
    agrees_on(alloc, d, pol, &store, &packet)
}

fn agrees_at_each(alloc: Global, d: &Made, pol: &Pol) -> Result<bool, Fail>
    requires { IsWellFormedDiagram d.now.groups d.now.ctx d.now.nodes d.now.root }
{
    for number in 0..81u64 {
        if !agrees_at(alloc, d, pol, number)? {
            return Ok(false);
        }
    }
    Ok(true)
}

// Whether the diagram of a program and evaluation agree on all these stores and packets.
fn agrees_everywhere(alloc: Global, program: &Program) -> Result<bool, Fail>
    requires { IsWellFormed program.now }
{
    let d = diagram(alloc, program)?;
    agrees_at_each(alloc, &d, &program.body)
}

// Whether a program builds, or else evaluation is undefined on the store and packet that are given.
fn is_judged(alloc: Global, program: &Program) -> Result<bool, Fail>
    requires { IsWellFormed program.now }
{
    let groups = groups(alloc, program)?;
    match build(alloc, program, &groups) {
        Ok(_) => Ok(true),
        Err(BuildFault::Race { store, packet }) => {
            agrees(alloc, &Leaf::Race, &program.body, &store, &packet)
        }
        Err(BuildFault::NoMemory) => Err("out of memory")?,
    }
}

// Whether all of this is so of a program.
fn is_right(alloc: Global, program: &Program) -> Result<bool, Fail>
    requires { IsWellFormed program.now }
{
    Ok(agrees_everywhere(alloc, program)? && is_judged(alloc, program)?)
}

// Whether it is so of the program with this body.
fn is_right_of(alloc: Global, body: &str) -> Result<bool, Fail> {
    let text = format!(in alloc; "field f; field g; array s; array t; {body}")?;
    let program = program(alloc, text.as_str())?;
    is_right(alloc, &program)
}

fn judge(rt: &impl Abort, alloc: Global, body: &str) -> Result<(), Fail> {
    assert!(rt; is_right_of(alloc, body)?, "{body}");
    Ok(())
}

// Judges the program that two parts make in a form.
fn judge_parts(rt: &impl Abort, alloc: Global, form: Form, parts: [&str; 2]) -> Result<(), Fail> {
    let (before, between, behind) = form;
    let [left, right] = parts;
    let body = format!(in alloc; "{before}{left}{between}{right}{behind}")?;
    judge(rt, alloc, body.as_str())
}

#[test]
fn diagrams_do_what_evaluation_does(rt: HostRuntime) -> Result<(), Fail> {
    for form in FORMS {
        for left in PARTS {
            for right in PARTS {
                judge_parts(&rt, rt.alloc(), *form, [*left, *right])?;
            }
        }
    }
    Ok(())
}

// Two choices, which race where one of them reads what the other writes, and a choice by a predicate of parts.
const CHOICES: [&str; 2] = [
    "(if t[f] = 2 then s[g] += 2 else drop) + (if g = 2 then t[f] += 7 else outport <- f)",
    "if s[g] = 1 & !(t[g] = f) | f = 2 then s[f]++ + outport <- 9 else t[f] = 0",
];

#[test]
fn choices_do_what_evaluation_does(rt: HostRuntime) -> Result<(), Fail> {
    for body in CHOICES {
        judge(&rt, rt.alloc(), body)?;
    }
    Ok(())
}
