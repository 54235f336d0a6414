use crate::given::program;
use snap_dep::calls::{dependencies, groups};
use snap_dep::groups::Groups;
use std::alloc::Global;
use std::test::Fail;

// Programs, the dependencies between their arrays, and the first array of each group, in order.
const DEPENDENCIES: [(&str, &[(u16, u16)], &[u16]); 4] = [
    // Watching for tunnels over name lookups
    (
        "array orphan; array susp-client; array blacklist;
        if outport = 53
        then orphan[inport]++; susp-client[inport]++; if susp-client[inport] = 1 then blacklist[inport]++ else id
        else if orphan[inport] = 1 then orphan[inport]++; susp-client[inport]++ else id",
        &[(0, 0), (0, 1), (1, 2)],
        &[0, 1, 2],
    ),
    // A cycle over the arrays 1, 2 and 3 leads to 0, and 4 has no part in it.
    (
        "array a; array b; array c; array d; array e;
        if b[inport] = 1 then c[inport]++ else id + if c[inport] = 1 then d[inport]++ else id
        + if d[inport] = 1 then b[inport]++ else id + if d[inport] = 1 then a[inport]++ else id",
        &[(1, 2), (2, 3), (3, 0), (3, 1)],
        &[1, 0, 4],
    ),
    (
        "array s; array t; array u; atomic(s[inport]++; u[inport]++)",
        &[(0, 0), (0, 2), (2, 0), (2, 2)],
        &[0, 1],
    ),
    ("id", &[], &[]),
];

fn depends(alloc: Global, text: &str) -> Result<Vec<(u16, u16)>, Fail> {
    let program = program(alloc, text)?;
    Ok(dependencies(alloc, &program)?)
}

fn grouped(alloc: Global, text: &str) -> Result<Groups, Fail> {
    let program = program(alloc, text)?;
    Ok(groups(alloc, &program)?)
}

fn order(alloc: Global, text: &str) -> Result<Vec<u16>, Fail> {
    let groups = grouped(alloc, text)?;
    Ok(groups.order().to_vec(alloc)?)
}

#[test]
fn a_group_comes_after_those_that_lead_to_it(rt: HostRuntime) -> Result<(), Fail> {
    let alloc = rt.alloc();
    for (text, pairs, firsts) in DEPENDENCIES {
        assert!(rt; depends(alloc, text)?.as_slice() == pairs, "{text}");
        assert!(rt; order(alloc, text)?.as_slice() == firsts, "{text}");
    }
    Ok(())
}

#[test]
fn updates_in_one_go_are_tied(rt: HostRuntime) -> Result<(), Fail> {
    let text = "array s; array t; array u; atomic(s[inport]++; u[inport][1]++)";
    let made = grouped(rt.alloc(), text)?;
    assert!(rt; made.count() == 3);
    assert!(rt; made.tied(0, 2) && !made.tied(0, 1));
    assert!(rt; made.group(2) == 0 && made.rank(1) == 1);
    assert!(rt; made.members(0) == 5);
    Ok(())
}

// A program of 64 arrays, of which the last one leads to all others.
fn sixty_four(alloc: Global) -> Result<String, Fail> {
    let mut text = String::new(alloc);
    for var in 0..64u16 {
        text.push_str(format!(in alloc; "array v{var}; ")?.as_str())?;
    }
    text.push_str("if v63[1] = 1 then ")?;
    for var in 0..63u16 {
        text.push_str(format!(in alloc; "v{var}[1]++; ")?.as_str())?;
    }
    text.push_str("id else id")?;
    Ok(text)
}

#[test]
fn the_last_of_sixty_four_arrays_leads(rt: HostRuntime) -> Result<(), Fail> {
    let alloc = rt.alloc();
    let text = sixty_four(alloc)?;
    assert_eq!(rt; depends(alloc, text.as_str())?.len(), 63);
    let order = order(alloc, text.as_str())?;
    assert!(rt; order.len() == 64 && order.first() == Some(&63));
    assert!(rt;
        order[1..]
            .iter()
            .enumerate()
            .all(|(at, var)| *var as usize == at)
    );
    Ok(())
}
