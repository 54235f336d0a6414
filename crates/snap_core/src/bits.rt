//! The numbers of a policy have 64 bits, as their types say: reading them tells it to a proof.

ghost use Rattle.std.specs.Prelude.{◌<◌, ◌^◌};
ghost use Rattle.std.specs.List.{All};
ghost use Rattle.snap_core.specs.Laws.{OpIsSmall, PutsSmall};
ghost use Rattle.snap_core.specs.Ranges.{AtomInRange, OpInRange, OutInRange, TermInRange, TestInRange, UpdateInRange};

use crate::lists::Out;
use crate::policy::{Atom, Op, Pol, Term, Test, Update};

/// The number of an atom has 64 bits.
pub fn know_atom(atom: Atom)
    ensures { AtomInRange atom }
{}

/// The number of a term has 64 bits.
pub fn know_term(term: Term)
    ensures { TermInRange term }
{}

/// The number of an operation has 64 bits.
pub fn know_op(op: Op)
    ensures { OpInRange op }
{}

/// Each number of an index has 64 bits.
pub fn know_index(atoms: &[Atom])
    ensures { All AtomInRange atoms.now }
{
    for atom in atoms {
        know_atom(*atom);
    }
}

/// Each number of a test has 64 bits.
pub fn know_test(test: &Test)
    ensures { TestInRange test.now }
{
    match test {
        Test::Value { num, .. } => know_number(*num),
        Test::Equal { plus, .. } => know_number(*plus),
        Test::State { index, value, .. } => {
            know_index(index.items());
            know_term(*value);
        }
    }
}

/// Each number of updates has 64 bits.
pub fn know_updates(updates: &[Update])
    ensures { All UpdateInRange updates.now }
{
    for update in updates {
        know_index(update.index.items());
        know_op(update.op);
    }
}

/// Each number of outs has 64 bits.
pub fn know_outs(outs: &[Out])
    ensures { All OutInRange outs.now }
{
    for out in outs {
        know_parts(out.parts());
    }
}

fn know_number(number: u64)
    ensures { number < 2 ^ 64 }
{}

fn know_part(part: &(u16, Atom))
    ensures { AtomInRange part.now.1 }
{
    know_atom(part.1);
}

fn know_parts(parts: &[(u16, Atom)])
    ensures { OutInRange parts.now }
{
    for part in parts {
        know_part(part);
    }
}

/// The number that an update puts has 64 bits.
pub fn op_is_small(op: Op)
    ensures { OpIsSmall op }
{
    match op {
        Op::Put(atom) => know_atom(atom),
        Op::Add(_) => {}
    }
}

/// Each number that a policy puts anywhere has 64 bits, as its type says.
pub fn puts_small(pol: &Pol)
    ensures { PutsSmall pol.now }
{
    match pol {
        Pol::Filter(_) => {}
        Pol::Set { comp: _, from } => know_atom(*from),
        Pol::Change(update) => op_is_small(update.op),
        Pol::Par(left, right) => {
            puts_small(left);
            puts_small(right);
        }
        Pol::Seq(first, second) => {
            puts_small(first);
            puts_small(second);
        }
        Pol::If(_, yes, no) => {
            puts_small(yes);
            puts_small(no);
        }
        Pol::Atomic(part) => puts_small(part),
    }
}
