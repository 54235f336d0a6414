use crate::given::{AT_THREE, AT_TWO, AT_ZERO, Asks, FOUR, THREE, context, test};
use snap_context::example::example;
use snap_context::fits::fits;
use snap_core::packet::Packet;
use snap_core::policy::{Atom, Term, Test};
use snap_core::store::Store;
use std::alloc::Global;
use std::test::Fail;

// Whether a store and a packet of five components pass a test.
fn passes(alloc: Global, test: &Test, store: &Store, packet: &Packet) -> Result<bool, Fail> {
    if packet.comps().len() != 5 || !fits(test, 5) {
        return Err("the test doesn't fit")?;
    }
    Ok(test.passes(alloc, store, packet)?)
}

// Whether the example of these facts meets them.
fn is_met(alloc: Global, facts: &[(Asks, bool)]) -> Result<bool, Fail> {
    let ctx = context(alloc, facts)?;
    let (store, packet) = example(alloc, &ctx)?;
    for (asks, yes) in facts {
        let test = test(alloc, *asks)?;
        if passes(alloc, &test, &store, &packet)? != *yes {
            return Ok(false);
        }
    }
    Ok(true)
}

const FACTS: &[&[(Asks, bool)]] = &[
    &[
        (Asks::Is(3, 1), true),
        (Asks::Is(4, 2), true),
        (Asks::Holds(0, AT_TWO, THREE), true),
    ],
    &[(Asks::Equal(2, 3, 1), true), (Asks::Is(2, 0), true)],
    &[
        (Asks::Holds(0, AT_TWO, Term::Num(0)), true),
        (Asks::Holds(0, AT_THREE, Term::Num(1)), true),
    ],
    &[(Asks::Holds(0, AT_TWO, Term::Num(0)), true)],
    &[
        (Asks::Holds(0, AT_TWO, FOUR), true),
        (Asks::Equal(2, 3, 0), true),
    ],
    &[
        (Asks::Holds(0, AT_ZERO, Term::Num(0)), false),
        (Asks::Holds(0, AT_ZERO, Term::Num(1)), false),
    ],
    // A place that is denied one number first, and is then said to hold a great one
    &[
        (Asks::Holds(0, AT_TWO, Term::Num(0)), false),
        (Asks::Equal(2, 3, 1), true),
        (Asks::Is(4, 9223372036854775808), true),
        (
            Asks::Holds(0, AT_TWO, Term::Num(18446744073709551615)),
            true,
        ),
    ],
];

#[test]
fn examples_meet_their_facts(rt: HostRuntime) -> Result<(), Fail> {
    for (at, facts) in FACTS.iter().enumerate() {
        assert!(rt; is_met(rt.alloc(), *facts)?, "facts {at}");
    }
    Ok(())
}
