use snap_core::cases::Cases;
use std::test::Fail;

// Numbers, each with what it stands for.
const CASES: &[(u64, u64)] = &[
    (7, 1),
    (3, 2),
    (7, 3),
    (u64::MAX, 4),
    (0, 5),
    (3, 6),
    (8, u64::MAX),
];

// Numbers, and what the first case of each says.
const SAID: &[(u64, Option<u64>)] = &[
    (0, Some(5)),
    (1, None),
    (3, Some(2)),
    (7, Some(1)),
    (8, Some(u64::MAX)),
    (9, None),
    (u64::MAX - 1, None),
    (u64::MAX, Some(4)),
];

#[test]
fn the_first_case_of_a_number_counts(rt: HostRuntime) -> Result<(), Fail> {
    let cases = Cases::of(CASES.to_vec(rt.alloc())?)?;
    for (number, said) in SAID {
        assert!(rt; cases.get(*number) == *said, "{number}");
    }
    Ok(())
}

#[test]
fn no_cases_say_nothing(rt: HostRuntime) -> Result<(), Fail> {
    let cases = Cases::of(Vec::new(rt.alloc()))?;
    assert!(rt; cases.get(0).is_none() && cases.get(u64::MAX).is_none());
    Ok(())
}
