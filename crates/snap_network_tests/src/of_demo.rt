use snap_demo::summary::summary;
use std::test::Fail;

#[test]
fn three_switches(rt: HostRuntime) -> Result<(), Fail> {
    let text = summary(rt.alloc(), 3)?;
    let lines =
        b"demo 3\nswitches 3\npackets 300\ndelivered 300\nlost 0\nsum seen 300\nsum count 100\nend\n";
    assert!(rt; text.as_slice() == lines.as_slice());
    Ok(())
}

#[test]
fn one_switch(rt: HostRuntime) -> Result<(), Fail> {
    let text = summary(rt.alloc(), 1)?;
    let lines =
        b"demo 1\nswitches 1\npackets 100\ndelivered 100\nlost 0\nsum seen 100\nsum count 100\nend\n";
    assert!(rt; text.as_slice() == lines.as_slice());
    Ok(())
}
