// Parts of a program, joined and counted.

ghost use Rattle.std.specs.Prelude.{◌≡◌, ◌+◌, ◌≤◌, true, Option, option_map, is_some, if◌then◌else◌, IfOk, IfErr, OnOk};
ghost use Rattle.snap_names.specs.Core.{CoreTest, CorePolicy, is_filter, core_test, core_policy, nodes, filter, not_test, choice, atomic};
ghost use Rattle.snap_names.specs.Declarations.{capped};
ghost use Rattle.snap_names.specs.Parts.{IsPart, itself, filter_of, negated_core, test_join, policy_join, joined_tests, joined_policies, chosen_policies, chosen_core, JoinsParts, JoinsChoice, boxed_test, boxed_policy};
ghost use Rattle.snap_names.specs.declared.fault.NameFault.TheVariants.{NoMemory};

use crate::fault::NameFault;
use crate::scope::{Part, Sizes};
use crate::sizes::{nodes, product, sum, weight};
use snap_core::policy::{Pol, Pred};
use std::alloc::Global;

/// The greatest number of core nodes of a program.
pub(crate) const MOST_NODES: u64 = 2000;

// Whether a policy is a filter.
fn is_filter(policy: &Pol) -> bool
    ensures { result ≡ is_filter (core_policy policy.now) }
{
    match policy {
        Pol::Filter(_) => true,
        _ => false,
    }
}

impl Sizes {
    /// Counts core nodes.
    pub(crate) fn count(&mut self, nodes: u64)
        ensures nodes { self.new.nodes ≡ capped (self.old.nodes + nodes) }
        ensures arities { self.new.arities.items ≡ self.old.arities.items }
    {
        self.nodes = sum(self.nodes, nodes);
    }

    /// Counts one core node. Whether all are within the limit then.
    pub(crate) fn has_room(&mut self) -> bool
        ensures room { self.new.nodes ≤ 2000 → result ≡ true }
        ensures nodes { self.new.nodes ≡ capped (self.old.nodes + 1) }
        ensures arities { self.new.arities.items ≡ self.old.arities.items }
    {
        self.count(1);
        self.nodes <= MOST_NODES
    }

    /// A whole policy as a part.
    pub(crate) fn leaf(&mut self, policy: Pol) -> Part
        ensures part { IsPart (core_policy policy) self.new.nodes result }
        ensures nodes { self.new.nodes ≡ capped (self.old.nodes + nodes (core_policy policy)) }
        ensures arities { self.new.arities.items ≡ self.old.arities.items }
    {
        self.count(nodes(&policy));
        let is_test = is_filter(&policy);
        let weight = weight(&policy);
        Part {
            is_test,
            weight,
            policy: Some(policy),
        }
    }
}

// The predicate of a filter.
fn test_of(policy: Option<Pol>) -> Option<Pred>
    ensures { option_map core_test result ≡ filter_of (option_map core_policy policy) }
{
    match policy {
        Some(Pol::Filter(test)) => Some(test),
        _ => None,
    }
}

// The predicate of a filter, in a box of its own.
fn boxed_test(alloc: Global, policy: Option<Pol>) -> Result<Option<Box<Pred>>, NameFault>
    ensures ok { IfOk result (λ r. boxed_test r ≡ filter_of (option_map core_policy policy)) }
    ensures err { IfErr result (λ f. f ≡ NoMemory) }
{
    match test_of(policy) {
        Some(test) => Ok(Some(Box::new(alloc, test)?)),
        None => Ok(None),
    }
}

// A policy in a box of its own.
fn boxed(alloc: Global, policy: Option<Pol>) -> Result<Option<Box<Pol>>, NameFault>
    ensures ok { IfOk result (λ r. boxed_policy r ≡ option_map core_policy policy) }
    ensures err { IfErr result (λ f. f ≡ NoMemory) }
{
    match policy {
        Some(policy) => Ok(Some(Box::new(alloc, policy)?)),
        None => Ok(None),
    }
}

fn negated(alloc: Global, policy: Option<Pol>) -> Result<Option<Pol>, NameFault>
    ensures ok { IfOk result (λ r. option_map core_policy r ≡ negated_core (option_map core_policy policy)) }
    ensures err { IfErr result (λ f. f ≡ NoMemory) }
{
    match test_of(policy) {
        Some(test) => {
            let test = Box::new(alloc, test)?;
            Ok(Some(Pol::Filter(Pred::Not(test))))
        }
        None => Ok(None),
    }
}

/// How predicates are joined.
#[derive(Clone, Copy)]
pub enum TestJoin {
    /// `&`
    Both,
    /// `|`
    Either,
}

/// How policies are joined.
#[derive(Clone, Copy)]
pub enum PolicyJoin {
    /// `+`
    Beside,
    /// `;`
    Behind,
}

impl TestJoin {
    // Two predicates joined, where both are there and there is room for them.
    fn of(self, room: bool, left: Option<Box<Pred>>, right: Option<Box<Pred>>) -> Option<Pol>
        ensures { room ≡ true → option_map core_policy result ≡ joined_tests (test_join self) (boxed_test left) (boxed_test right) }
    {
        if !room {
            return None;
        }
        let left = left?;
        let right = right?;
        Some(Pol::Filter(match self {
            TestJoin::Both => Pred::And(left, right),
            TestJoin::Either => Pred::Or(left, right),
        }))
    }
}

impl PolicyJoin {
    // Two policies joined, where both are there and there is room for them.
    fn of(self, room: bool, left: Option<Box<Pol>>, right: Option<Box<Pol>>) -> Option<Pol>
        ensures { room ≡ true → option_map core_policy result ≡ joined_policies (policy_join self) (boxed_policy left) (boxed_policy right) }
    {
        if !room {
            return None;
        }
        let left = left?;
        let right = right?;
        Some(match self {
            PolicyJoin::Beside => Pol::Par(left, right),
            PolicyJoin::Behind => Pol::Seq(left, right),
        })
    }
}

// A choice, where all of it is there and there is room for it.
fn branched(
    room: bool,
    test: Option<Pred>,
    yes: Option<Box<Pol>>,
    no: Option<Box<Pol>>,
) -> Option<Pol>
    ensures { room ≡ true → option_map core_policy result ≡ chosen_policies (option_map core_test test) (boxed_policy yes) (boxed_policy no) }
{
    if !room {
        return None;
    }
    let yes = yes?;
    let no = no?;
    Some(Pol::If(test?, yes, no))
}

// Two predicates joined, where there is room for them.
fn joined_tests(
    alloc: Global,
    room: bool,
    join: TestJoin,
    left: Option<Pol>,
    right: Option<Pol>,
) -> Result<Option<Pol>, NameFault>
    ensures ok { IfOk result (λ r. room ≡ true → option_map core_policy r ≡ joined_tests (test_join join) (filter_of (option_map core_policy left)) (filter_of (option_map core_policy right))) }
    ensures err { IfErr result (λ f. f ≡ NoMemory) }
{
    let left = boxed_test(alloc, left);
    let right = boxed_test(alloc, right);
    Ok(join.of(room, left?, right?))
}

// Two policies joined, where there is room for them.
fn joined_policies(
    alloc: Global,
    room: bool,
    join: PolicyJoin,
    left: Option<Pol>,
    right: Option<Pol>,
) -> Result<Option<Pol>, NameFault>
    ensures ok { IfOk result (λ r. room ≡ true → option_map core_policy r ≡ joined_policies (policy_join join) (option_map core_policy left) (option_map core_policy right)) }
    ensures err { IfErr result (λ f. f ≡ NoMemory) }
{
    let left = boxed(alloc, left);
    let right = boxed(alloc, right);
    Ok(join.of(room, left?, right?))
}

// A choice, where there is room for it.
fn chosen(
    alloc: Global,
    room: bool,
    test: Option<Pol>,
    yes: Option<Pol>,
    no: Option<Pol>,
) -> Result<Option<Pol>, NameFault>
    ensures ok { IfOk result (λ r. room ≡ true → option_map core_policy r ≡ chosen_core (option_map core_policy test) (option_map core_policy yes) (option_map core_policy no)) }
    ensures err { IfErr result (λ f. f ≡ NoMemory) }
{
    let yes = boxed(alloc, yes);
    let no = boxed(alloc, no);
    let test = test_of(test);
    Ok(branched(room, test, yes?, no?))
}

// A policy that is done as a whole.
fn whole(alloc: Global, policy: Option<Pol>) -> Result<Option<Pol>, NameFault>
    ensures ok { IfOk result (λ r. option_map core_policy r ≡ option_map atomic (option_map core_policy policy)) }
    ensures err { IfErr result (λ f. f ≡ NoMemory) }
{
    let policy = boxed(alloc, policy)?;
    Ok(policy.map(Pol::Atomic))
}

/// `!part`
pub(crate) fn not(alloc: Global, tally: &mut Sizes, part: Part) -> Result<Part, NameFault>
    ensures part { IfOk result (λ r. (x : CoreTest) → IsPart (filter x) tally.old.nodes part → IsPart (filter (not_test x)) tally.new.nodes r) }
    ensures nodes { OnOk result (tally.new.nodes ≡ capped (tally.old.nodes + 1)) }
    ensures arities { OnOk result (tally.new.arities.items ≡ tally.old.arities.items) }
    ensures err { IfErr result (λ f. f ≡ NoMemory) }
{
    let Part { weight, policy, .. } = part;
    tally.count(1);
    let policy = negated(alloc, policy)?;
    Ok(Part {
        is_test: true,
        weight,
        policy,
    })
}

/// `atomic(part)`
pub(crate) fn atomic(alloc: Global, tally: &mut Sizes, part: Part) -> Result<Part, NameFault>
    ensures part { IfOk result (λ r. (p : CorePolicy) → IsPart p tally.old.nodes part → IsPart (atomic p) tally.new.nodes r) }
    ensures nodes { OnOk result (tally.new.nodes ≡ capped (tally.old.nodes + 1)) }
    ensures arities { OnOk result (tally.new.arities.items ≡ tally.old.arities.items) }
    ensures err { IfErr result (λ f. f ≡ NoMemory) }
{
    let Part { weight, policy, .. } = part;
    tally.count(1);
    let policy = whole(alloc, policy)?;
    Ok(Part {
        is_test: false,
        weight,
        policy,
    })
}

/// `before & next` or `before | next`, or what stands alone
pub(crate) fn join_tests(
    alloc: Global,
    tally: &mut Sizes,
    join: TestJoin,
    before: Option<Part>,
    next: Part,
) -> Result<Part, NameFault>
    ensures part { IfOk result (JoinsParts filter (test_join join) tally.old.nodes tally.new.nodes before next) }
    ensures nodes { OnOk result (tally.new.nodes ≡ (if is_some before then capped (tally.old.nodes + 1) else tally.old.nodes)) }
    ensures arities { OnOk result (tally.new.arities.items ≡ tally.old.arities.items) }
    ensures err { IfErr result (λ f. f ≡ NoMemory) }
{
    let Some(before) = before else {
        return Ok(next);
    };
    let weight = sum(before.weight, next.weight);
    let room = tally.has_room();
    let policy = joined_tests(alloc, room, join, before.policy, next.policy)?;
    Ok(Part {
        is_test: true,
        weight,
        policy,
    })
}

/// `before + next` or `before ; next`, or what stands alone
pub(crate) fn join_policies(
    alloc: Global,
    tally: &mut Sizes,
    join: PolicyJoin,
    before: Option<Part>,
    next: Part,
) -> Result<Part, NameFault>
    ensures part { IfOk result (JoinsParts itself (policy_join join) tally.old.nodes tally.new.nodes before next) }
    ensures nodes { OnOk result (tally.new.nodes ≡ (if is_some before then capped (tally.old.nodes + 1) else tally.old.nodes)) }
    ensures arities { OnOk result (tally.new.arities.items ≡ tally.old.arities.items) }
    ensures err { IfErr result (λ f. f ≡ NoMemory) }
{
    let Some(before) = before else {
        return Ok(next);
    };
    let weight = product(before.weight, next.weight);
    let room = tally.has_room();
    let policy = joined_policies(alloc, room, join, before.policy, next.policy)?;
    Ok(Part {
        is_test: false,
        weight,
        policy,
    })
}

/// `if test then yes else no`
pub(crate) fn choice(
    alloc: Global,
    tally: &mut Sizes,
    test: Part,
    yes: Part,
    no: Part,
) -> Result<Part, NameFault>
    ensures part { IfOk result (JoinsChoice tally.old.nodes tally.new.nodes test yes no) }
    ensures nodes { OnOk result (tally.new.nodes ≡ capped (tally.old.nodes + 1)) }
    ensures arities { OnOk result (tally.new.arities.items ≡ tally.old.arities.items) }
    ensures err { IfErr result (λ f. f ≡ NoMemory) }
{
    let weight = sum(sum(test.weight, yes.weight), no.weight);
    let room = tally.has_room();
    let policy = chosen(alloc, room, test.policy, yes.policy, no.policy)?;
    Ok(Part {
        is_test: false,
        weight,
        policy,
    })
}
