//! The components and arrays that tests and leaves name.

use snap_context::sets::bit;
use snap_core::lists::{Atoms, Out};
use snap_core::policy::{Atom, Op, Term, Test, Update};
use snap_diagrams::leaf::Leaf;

/// Components and arrays, a bit each.
#[derive(Clone, Copy)]
pub(crate) struct Names {
    pub comps: u64,
    pub arrays: u64,
}

/// No components and no arrays.
pub(crate) const NOTHING: Names = Names {
    comps: 0,
    arrays: 0,
};

/// What either of two names.
pub(crate) fn either(left: Names, right: Names) -> Names {
    Names {
        comps: left.comps | right.comps,
        arrays: left.arrays | right.arrays,
    }
}

fn atom_names(atom: Atom) -> u64 {
    match atom {
        Atom::Num(_) => 0,
        Atom::Comp(comp) => bit(comp),
    }
}

/// The components of an index.
pub(crate) fn index_names(index: &Atoms) -> u64 {
    let mut comps = 0;
    for atom in index.items() {
        comps |= atom_names(*atom);
    }
    comps
}

/// The component of a term, if it has one.
pub(crate) fn term_names(term: Term) -> u64 {
    match term {
        Term::Num(_) => 0,
        Term::Plus { comp, plus: _ } => bit(comp),
    }
}

/// What a test names.
pub(crate) fn test_names(test: &Test) -> Names {
    match test {
        Test::Value { comp, num: _ } => Names {
            comps: bit(*comp),
            arrays: 0,
        },
        Test::Equal {
            left,
            right,
            plus: _,
        } => Names {
            comps: bit(*left) | bit(*right),
            arrays: 0,
        },
        Test::State { var, index, value } => Names {
            comps: index_names(index) | term_names(*value),
            arrays: bit(*var),
        },
    }
}

fn out_names(out: &Out) -> u64 {
    let mut comps = 0;
    for part in out.parts() {
        comps |= bit(part.0) | atom_names(part.1);
    }
    comps
}

fn op_names(op: Op) -> u64 {
    match op {
        Op::Put(atom) => atom_names(atom),
        Op::Add(_) => 0,
    }
}

fn update_names(update: &Update) -> Names {
    Names {
        comps: index_names(&update.index) | op_names(update.op),
        arrays: bit(update.var),
    }
}

/// What a leaf names: the components that it sets, and all that it reads.
pub(crate) fn leaf_names(leaf: &Leaf) -> Names {
    let Leaf::Go(go) = leaf else {
        return NOTHING;
    };
    let mut names = NOTHING;
    for out in go.outs.items() {
        names.comps |= out_names(out);
    }
    for update in go.ups.items() {
        names = either(names, update_names(update));
    }
    names
}
