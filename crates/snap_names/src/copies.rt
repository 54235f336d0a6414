// Copies of core programs.

ghost use Rattle.std.specs.Prelude.{◌≡◌, IfOk, IfErr};
ghost use Rattle.snap_names.specs.Core.{core_test, core_policy};
ghost use Rattle.snap_names.specs.declared.fault.NameFault.TheVariants.{NoMemory};

use crate::fault::NameFault;
use snap_core::policy::{Pol, Pred};
use std::alloc::Global;

/// An equal predicate.
#[cycle(tests)]
pub(crate) fn copy_test(alloc: Global, test: &Pred) -> Result<Pred, NameFault>
    ensures ok { IfOk result (λ copy. core_test copy ≡ core_test test.now) }
    ensures err { IfErr result (λ f. f ≡ NoMemory) }
{
    match test {
        Pred::Id => Ok(Pred::Id),
        Pred::Drop => Ok(Pred::Drop),
        Pred::Field { comp, num } => Ok(Pred::Field {
            comp: *comp,
            num: *num,
        }),
        Pred::State { var, index, value } => {
            let index = index.copy()?;
            Ok(Pred::State {
                var: *var,
                index,
                value: *value,
            })
        }
        Pred::Not(part) => Ok(Pred::Not(boxed_test(alloc, part)?)),
        Pred::And(left, right) => {
            let left = boxed_test(alloc, left)?;
            let right = boxed_test(alloc, right)?;
            Ok(Pred::And(left, right))
        }
        Pred::Or(left, right) => {
            let left = boxed_test(alloc, left)?;
            let right = boxed_test(alloc, right)?;
            Ok(Pred::Or(left, right))
        }
    }
}

// An equal predicate in a box of its own.
#[cycle(tests)]
fn boxed_test(alloc: Global, test: &Pred) -> Result<Box<Pred>, NameFault>
    ensures ok { IfOk result (λ copy. core_test copy.value ≡ core_test test.now) }
    ensures err { IfErr result (λ f. f ≡ NoMemory) }
{
    let copy = copy_test(alloc, test)?;
    Ok(Box::new(alloc, copy)?)
}

/// An equal policy.
#[cycle(policies)]
pub(crate) fn copy_policy(alloc: Global, policy: &Pol) -> Result<Pol, NameFault>
    ensures ok { IfOk result (λ copy. core_policy copy ≡ core_policy policy.now) }
    ensures err { IfErr result (λ f. f ≡ NoMemory) }
{
    match policy {
        Pol::Filter(test) => {
            let test = copy_test(alloc, test)?;
            Ok(Pol::Filter(test))
        }
        Pol::Set { comp, from } => Ok(Pol::Set {
            comp: *comp,
            from: *from,
        }),
        Pol::Change(update) => {
            let update = update.copy()?;
            Ok(Pol::Change(update))
        }
        Pol::Par(left, right) => {
            let left = boxed_policy(alloc, left)?;
            let right = boxed_policy(alloc, right)?;
            Ok(Pol::Par(left, right))
        }
        Pol::Seq(first, second) => {
            let first = boxed_policy(alloc, first)?;
            let second = boxed_policy(alloc, second)?;
            Ok(Pol::Seq(first, second))
        }
        Pol::If(test, yes, no) => {
            let test = copy_test(alloc, test)?;
            let yes = boxed_policy(alloc, yes)?;
            let no = boxed_policy(alloc, no)?;
            Ok(Pol::If(test, yes, no))
        }
        Pol::Atomic(part) => Ok(Pol::Atomic(boxed_policy(alloc, part)?)),
    }
}

// An equal policy in a box of its own.
#[cycle(policies)]
fn boxed_policy(alloc: Global, policy: &Pol) -> Result<Box<Pol>, NameFault>
    ensures ok { IfOk result (λ copy. core_policy copy.value ≡ core_policy policy.now) }
    ensures err { IfErr result (λ f. f ≡ NoMemory) }
{
    let copy = copy_policy(alloc, policy)?;
    Ok(Box::new(alloc, copy)?)
}
