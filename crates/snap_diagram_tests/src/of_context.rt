use crate::given::{AT_THREE, AT_TWO, AT_ZERO, Asks, FOUR, THREE, context, test};
use snap_context::context::{Assumed, Context, Verdict};
use snap_context::fits::fits;
use snap_core::policy::{Atom, Term};
use std::alloc::{AllocError, Global};
use std::process::Abort;
use std::test::Fail;

// Facts, what is asked under them, and the answer.
const VERDICTS: &[(&[(Asks, bool)], Asks, Verdict)] = &[
    // Different numbers tell two terms apart.
    (
        &[
            (Asks::Is(3, 1), true),
            (Asks::Is(4, 2), true),
            (Asks::Holds(0, AT_TWO, THREE), true),
        ],
        Asks::Holds(0, AT_TWO, FOUR),
        Verdict::Never,
    ),
    // Different values tell two places apart.
    (
        &[
            (Asks::Holds(0, AT_TWO, Term::Num(0)), true),
            (Asks::Holds(0, AT_THREE, Term::Num(1)), true),
        ],
        Asks::Equal(2, 3, 0),
        Verdict::Never,
    ),
    // Another place is open.
    (
        &[(Asks::Holds(0, AT_TWO, Term::Num(0)), true)],
        Asks::Holds(0, AT_THREE, Term::Num(0)),
        Verdict::Unsure,
    ),
    // Equal indices give equal values.
    (
        &[
            (Asks::Holds(0, AT_TWO, FOUR), true),
            (Asks::Equal(2, 3, 0), true),
        ],
        Asks::Holds(0, AT_THREE, FOUR),
        Verdict::Always,
    ),
    // Sums wrap.
    (
        &[(Asks::Equal(2, 3, 1), true), (Asks::Is(2, 0), true)],
        Asks::Is(3, 18446744073709551615),
        Verdict::Always,
    ),
    // What a place doesn't hold never says what it holds.
    (
        &[
            (Asks::Holds(0, AT_ZERO, Term::Num(0)), false),
            (Asks::Holds(0, AT_ZERO, Term::Num(1)), false),
        ],
        Asks::Holds(0, AT_ZERO, Term::Num(2)),
        Verdict::Unsure,
    ),
    // Two places that differ in value and agree in one atom differ in the other.
    (
        &[
            (Asks::HoldsAt([1, 2], 0), true),
            (Asks::HoldsAt([3, 4], 1), true),
            (Asks::Equal(1, 3, 0), true),
        ],
        Asks::Equal(2, 4, 0),
        Verdict::Never,
    ),
];

fn verdict(alloc: Global, facts: &[(Asks, bool)], asks: Asks) -> Result<Verdict, Fail> {
    let ctx = context(alloc, facts)?;
    let test = test(alloc, asks)?;
    if !fits(&test, ctx.comps()) {
        return Err("the test doesn't fit")?;
    }
    Ok(ctx.decide(&test)?)
}

#[test]
fn facts_decide_tests(rt: HostRuntime) -> Result<(), Fail> {
    for (facts, asks, wanted) in VERDICTS {
        assert_eq!(rt; verdict(rt.alloc(), *facts, *asks)?, *wanted);
    }
    Ok(())
}

fn tells(rt: &impl Abort, ctx: &Context) {
    assert_eq!(rt; ctx.comps(), 5);
    assert_eq!(rt; ctx.facts().len(), 3);
    let mut facts = ctx.facts().iter();
    assert!(rt; facts.next().is_some_and(|fact| fact.yes));
    assert!(rt; facts.next().is_some_and(|fact| !fact.yes));
    assert_eq!(rt; ctx.class(3), Term::Num(18446744073709551615));
    assert_eq!(rt; ctx.class(4), FOUR);
}

#[test]
fn readers_tell_what_was_assumed(rt: HostRuntime) -> Result<(), Fail> {
    let facts = [
        (Asks::Equal(2, 3, 1), true),
        (Asks::Is(4, 7), false),
        (Asks::Is(2, 0), true),
    ];
    let ctx = context(rt.alloc(), &facts)?;
    tells(&rt, &ctx);
    Ok(())
}

// Whether a fact beside others is met by no store and packet.
fn is_impossible(alloc: Global, facts: &[(Asks, bool)], asks: Asks) -> Result<bool, Fail> {
    let ctx = context(alloc, facts)?;
    let test = test(alloc, asks)?;
    if !fits(&test, ctx.comps()) {
        return Err("the test doesn't fit")?;
    }
    Ok(matches!(ctx.assume(&test, true)?, Assumed::Impossible))
}

#[test]
fn what_facts_deny_is_impossible(rt: HostRuntime) -> Result<(), Fail> {
    let facts = [(Asks::Equal(2, 3, 1), true), (Asks::Is(2, 0), true)];
    assert!(rt; is_impossible(rt.alloc(), &facts, Asks::Is(3, 0))?);
    assert!(rt; !is_impossible(rt.alloc(), &facts, Asks::Is(4, 0))?);
    Ok(())
}

// A component differs from 80 numbers, and another has one.
fn eighty_numbers(alloc: Global) -> Result<Vec<(Asks, bool)>, AllocError> {
    let mut facts = Vec::new(alloc);
    for num in 0..80u64 {
        facts.push((Asks::Is(4, num), false))?;
    }
    facts.push((Asks::Is(3, 7), true))?;
    Ok(facts)
}

#[test]
fn facts_past_sixty_four_are_kept(rt: HostRuntime) -> Result<(), Fail> {
    let alloc = rt.alloc();
    let facts = eighty_numbers(alloc)?;
    assert_eq!(rt; context(alloc, &facts)?.facts().len(), 81);
    assert_eq!(rt; verdict(alloc, &facts, Asks::Is(4, 79))?, Verdict::Never);
    assert_eq!(rt; verdict(alloc, &facts, Asks::Is(4, 80))?, Verdict::Unsure);
    Ok(())
}

// What is known about a set of components, behind 9.
fn known_of(alloc: Global, facts: &[(Asks, bool)], comps: u64) -> Result<Vec<u64>, Fail> {
    match context(alloc, facts)?.known(9, comps, 0)? {
        Some(key) => Ok(key),
        None => Err("nothing is known")?,
    }
}

// What is known about the third component, behind 9.
fn known_of_third(alloc: Global, facts: &[(Asks, bool)]) -> Result<Vec<u64>, Fail> {
    known_of(alloc, facts, 4)
}

#[test]
fn facts_on_others_are_not_known(rt: HostRuntime) -> Result<(), Fail> {
    let alloc = rt.alloc();
    let others = [
        (Asks::Equal(2, 3, 1), false),
        (Asks::Is(4, 7), true),
        (Asks::Is(3, 7), false),
    ];
    let bare = known_of_third(alloc, &[])?;
    assert_eq!(rt; bare.first().copied(), Some(9));
    assert_eq!(rt; known_of_third(alloc, &others)?, bare);
    assert!(rt; known_of_third(alloc, &[(Asks::Is(2, 7), false)])? != bare);
    Ok(())
}

// The component of one of the facts, that of the eighty others, and all five components.
const SETS: &[u64] = &[8, 16, 31];

// The sets about which these facts say something: what is known by them is another thing than by none.
fn sets_known(alloc: Global, facts: &[(Asks, bool)]) -> Result<Vec<u64>, Fail> {
    let mut known = Vec::new(alloc);
    for comps in SETS {
        if known_of(alloc, facts, *comps)? != known_of(alloc, &[], *comps)? {
            known.push(*comps)?;
        }
    }
    Ok(known)
}

#[test]
fn many_facts_are_known(rt: HostRuntime) -> Result<(), Fail> {
    let alloc = rt.alloc();
    let facts = eighty_numbers(alloc)?;
    assert_eq!(rt; known_of_third(alloc, &facts)?, known_of_third(alloc, &[])?);
    assert_eq!(rt; sets_known(alloc, &facts)?.len(), 3);
    Ok(())
}
