// Limits of a program.

ghost use Rattle.std.specs.Prelude.{◌≡◌, ◌≢◌, ◌≤◌, IfOk, IfErr, Ok, Err, Some};
ghost use Rattle.snap_core.specs.Fields.{count, IsFields};
ghost use Rattle.snap_names.specs.Declarations.{capped, greatest, within, core_program};
ghost use Rattle.snap_names.specs.Scopes.{AreFields, IsWithin, Limits};
ghost use Rattle.snap_names.specs.declared.fault.NameFault.TheVariants.{NoMemory};

use crate::fault::NameFault;
use crate::parts::MOST_NODES;
use crate::scope::{Part, Scope, Sizes};
use crate::sizes::sum;
use snap_core::lists::{Name, Names};
use snap_core::policy::Pol;
use snap_core::program::{Field, Fields, Program, Which};
use std::alloc::Global;

// Refuses a count that passes its limit.
fn within(which: Which, count: u64, most: u64) -> Result<(), NameFault>
    ensures { result ≡ within which count most (Ok tt) }
{
    if count > most {
        Err(NameFault::Limit {
            which,
            count: count.min(4294967295),
        })
    } else {
        Ok(())
    }
}

// The number of components, kept as 4294967295 from there on.
fn count(fields: &[Field]) -> u64
    ensures { result ≡ capped (count fields.now) }
{
    let mut comps = 0;
    for field in fields {
        comps = sum(comps, u64::from(field.width()));
    }
    comps
}

// The greatest number of atoms of an array.
fn greatest(arities: &[Option<usize>]) -> u64
    ensures { result ≡ greatest arities.now }
{
    let mut most = 0;
    for arity in arities {
        if let Some(atoms) = arity {
            most = most.max(*atoms);
        }
    }
    most as u64
}

// A program with this body, if that was kept.
fn program(
    alloc: Global,
    fields: Vec<Field>,
    arrays: Vec<Name>,
    body: Option<Pol>,
) -> Result<Program, NameFault>
    requires { IsFields fields.items }
    ensures ok { IfOk result (λ p. (p.fields ≡ fields.items) × (p.arrays ≡ arrays.items) × (body ≡ Some p.body)) }
    ensures err { IfErr result (λ f. f ≡ NoMemory) }
{
    let body = body.ok_or(NameFault::NoMemory)?;
    let fields = Fields::new(alloc, fields)?;
    let arrays = Names::new(arrays);
    Ok(Program {
        fields,
        arrays,
        body,
    })
}

impl Scope<'_> {
    // Refuses the first count that passes its limit.
    fn within_limits(&self, tally: &Sizes, body: &Part) -> Result<(), NameFault>
        ensures fields { IfOk result (λ u. count self.now.fields.items ≤ 64) }
        ensures nodes { IfOk result (λ u. tally.now.nodes ≤ 2000) }
        ensures ok { IfOk result (λ u. IsWithin self.now tally.now body.now) }
        ensures refused { IfErr result (λ f. Limits self.now tally.now body.now (λ r. r ≡ Err f)) }
    {
        within(Which::Components, count(&self.fields), 64)?;
        within(Which::Arrays, self.arrays.len() as u64, 64)?;
        within(Which::Atoms, greatest(&tally.arities), 8)?;
        within(Which::Nodes, tally.nodes, MOST_NODES)?;
        within(Which::Weight, body.weight, 16777216)
    }

    /// The program with this body, if it is within all limits.
    pub(crate) fn limited(self, tally: Sizes, body: Part) -> Result<Program, NameFault>
        requires { AreFields self }
        ensures ok { IfOk result (λ program. Limits self.entry tally body (λ r. r ≡ Ok (core_program program))) }
        ensures refused { IfErr result (λ f. f ≢ NoMemory → Limits self.entry tally body (λ r. r ≡ Err f)) }
    {
        self.within_limits(&tally, &body)?;
        program(self.alloc, self.fields, self.arrays, body.policy)
    }
}
