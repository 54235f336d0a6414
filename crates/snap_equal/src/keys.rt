//! Pairs of diagrams beside facts, as lists of numbers.

ghost use Rattle.std.specs.Prelude.{◌≡◌, ◌∷◌, ◌++◌, IfOk, OnOk};
ghost use Rattle.snap_equal.specs.Weaker.{fact_code, facts_code};

use snap_context::fact::Fact;
use snap_context::facts::Facts;
use snap_core::NoMemory;
use snap_diagrams::codes::push_test;
use std::alloc::Global;

fn push_fact(code: &mut Vec<u64>, fact: &Fact) -> Result<(), NoMemory>
    ensures { OnOk result (code.new.items ≡ code.old.items ++ fact_code fact.now) }
{
    code.push(fact.yes as u64)?;
    push_test(code, fact.test.test())
}

fn push_facts(code: &mut Vec<u64>, facts: &Facts) -> Result<(), NoMemory>
    ensures { OnOk result (code.new.items ≡ code.old.items ++ facts_code facts.now) }
{
    for fact in facts.iter() {
        push_fact(code, fact)?;
    }
    Ok(())
}

/// Two numbers and the facts behind them.
pub(crate) fn pair_key(
    alloc: Global,
    first: u64,
    second: u64,
    facts: &Facts,
) -> Result<Vec<u64>, NoMemory>
    ensures { IfOk result (λ key. key.items ≡ first ∷ second ∷ facts_code facts.now) }
{
    let mut key = vec![in alloc; first, second]?;
    push_facts(&mut key, facts)?;
    Ok(key)
}
