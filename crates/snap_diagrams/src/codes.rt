//! Atoms, terms and tests as lists of numbers. Different ones have different lists.

ghost use Rattle.std.specs.Prelude.{◌≡◌, ◌≤◌, ◌+◌, ◌++◌, ◌∷◌, [], OnOk, vec_capacity, vec_len};
ghost use Rattle.snap_core.specs.Terms.{term_code};
ghost use Rattle.snap_diagrams.specs.Codes.{atom_code, index_code, test_code};

use snap_core::NoMemory;
use snap_core::lists::Atoms;
use snap_core::policy::{Atom, Term, Test};

// Makes room for more numbers. It tests first, where the compiler can inline it: most codes find room.
#[inline(always)]
fn make_room(code: &mut Vec<u64>, more: usize) -> Result<(), NoMemory>
    ensures items { code.new.items ≡ code.old.items }
    ensures room { OnOk result (vec_len code.new + more ≤ vec_capacity code.new) }
{
    if code.capacity() - code.len() < more {
        code.reserve(more)?;
    }
    Ok(())
}

/// Adds a number. Refuses for memory alone.
#[inline(always)]
pub fn push_one(code: &mut Vec<u64>, number: u64) -> Result<(), NoMemory>
    ensures { OnOk result (code.new.items ≡ code.old.items ++ number ∷ []) }
{
    make_room(code, 1)?;
    code.push_reserved(number);
    Ok(())
}

/// Adds two numbers. Refuses for memory alone.
#[inline(always)]
pub fn push_two(code: &mut Vec<u64>, first: u64, second: u64) -> Result<(), NoMemory>
    ensures { OnOk result (code.new.items ≡ code.old.items ++ first ∷ second ∷ []) }
{
    make_room(code, 2)?;
    code.push_reserved(first);
    code.push_reserved(second);
    Ok(())
}

/// Adds three numbers. Refuses for memory alone.
#[inline(always)]
pub fn push_three(code: &mut Vec<u64>, first: u64, second: u64, third: u64) -> Result<(), NoMemory>
    ensures { OnOk result (code.new.items ≡ code.old.items ++ first ∷ second ∷ third ∷ []) }
{
    make_room(code, 3)?;
    code.push_reserved(first);
    code.push_reserved(second);
    code.push_reserved(third);
    Ok(())
}

/// Adds the numbers of an atom. Refuses for memory alone.
pub fn push_atom(code: &mut Vec<u64>, atom: Atom) -> Result<(), NoMemory>
    ensures { OnOk result (code.new.items ≡ code.old.items ++ atom_code atom) }
{
    match atom {
        Atom::Num(num) => push_two(code, 1, num),
        Atom::Comp(comp) => push_one(code, comp as u64 + 2),
    }
}

/// Adds the numbers of an index. Refuses for memory alone.
pub fn push_index(code: &mut Vec<u64>, index: &Atoms) -> Result<(), NoMemory>
    ensures { OnOk result (code.new.items ≡ code.old.items ++ index_code index.now) }
{
    for atom in index.items() {
        push_atom(code, *atom)?;
    }
    push_one(code, 0)
}

/// Adds the numbers of a term. Refuses for memory alone.
pub fn push_term(code: &mut Vec<u64>, term: Term) -> Result<(), NoMemory>
    ensures { OnOk result (code.new.items ≡ code.old.items ++ term_code term) }
{
    match term {
        Term::Num(num) => push_two(code, 0, num),
        Term::Plus { comp, plus } => push_three(code, 1, comp as u64, plus),
    }
}

/// Adds the numbers of a test. Refuses for memory alone.
pub fn push_test(code: &mut Vec<u64>, test: &Test) -> Result<(), NoMemory>
    ensures { OnOk result (code.new.items ≡ code.old.items ++ test_code test.now) }
{
    match test {
        Test::Value { comp, num } => push_three(code, 0, *comp as u64, *num),
        Test::Equal { left, right, plus } => {
            push_two(code, 1, *left as u64)?;
            push_two(code, *right as u64, *plus)
        }
        Test::State { var, index, value } => {
            push_one(code, *var as u64 + 2)?;
            push_index(code, index)?;
            push_term(code, *value)
        }
    }
}
