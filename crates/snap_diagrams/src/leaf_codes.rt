//! Leaves as lists of numbers.

ghost use Rattle.std.specs.Prelude.{◌≡◌, ◌++◌, OnOk};
ghost use Rattle.snap_diagrams.specs.LeafCodes.{out_code, outs_code, op_code, ups_code};

use crate::codes::{push_atom, push_index, push_one, push_three, push_two};
use crate::leaf::{Go, Leaf};
use crate::node::Coded;
use snap_core::NoMemory;
use snap_core::lists::Out;
use snap_core::policy::{Op, Update};

/// Adds the numbers of an out. Refuses for memory alone.
pub fn push_out(code: &mut Vec<u64>, out: &Out) -> Result<(), NoMemory>
    ensures { OnOk result (code.new.items ≡ code.old.items ++ out_code out.now) }
{
    for (comp, atom) in out.parts() {
        push_two(code, 1, *comp as u64)?;
        push_atom(code, *atom)?;
    }
    push_one(code, 0)
}

fn push_outs(code: &mut Vec<u64>, outs: &[Out]) -> Result<(), NoMemory>
    ensures { OnOk result (code.new.items ≡ code.old.items ++ outs_code outs.now) }
{
    for out in outs {
        push_one(code, 1)?;
        push_out(code, out)?;
    }
    push_one(code, 0)
}

fn push_op(code: &mut Vec<u64>, op: Op) -> Result<(), NoMemory>
    ensures { OnOk result (code.new.items ≡ code.old.items ++ op_code op) }
{
    match op {
        Op::Put(atom) => {
            push_one(code, 0)?;
            push_atom(code, atom)
        }
        Op::Add(num) => push_two(code, 1, num),
    }
}

fn push_updates(code: &mut Vec<u64>, updates: &[Update]) -> Result<(), NoMemory>
    ensures { OnOk result (code.new.items ≡ code.old.items ++ ups_code updates.now) }
{
    for update in updates {
        push_two(code, 1, update.var as u64)?;
        push_index(code, &update.index)?;
        push_op(code, update.op)?;
    }
    push_one(code, 0)
}

impl Coded for Leaf {
    ghost use Rattle.snap_diagrams.specs.LeafCodes.{leaf_code};

    ghost code = { leaf_code };

    fn push_code(&self, out: &mut Vec<u64>) -> Result<(), NoMemory> {
        match self {
            Leaf::Race => push_one(out, 0),
            Leaf::Go(go) => {
                push_three(out, 1, go.reads, go.writes)?;
                push_outs(out, go.outs.items())?;
                push_updates(out, go.ups.items())
            }
        }
    }

    fn codes_differ() {}
}
