use crate::given::SQUARE;
use snap_core::lists::Names;
use snap_core::ports::PortAt;
use std::test::Fail;

// Whether names are these.
fn are_names(names: &Names, wanted: &[&[u8]]) -> bool {
    names.items().len() == wanted.len()
        && names
            .items()
            .iter()
            .zip(wanted.iter())
            .all(|(name, bytes)| name.items() == *bytes)
}

// Whether ports are these, each at its switch.
fn are_ports(ports: &[PortAt], wanted: &[(u32, u16)]) -> bool {
    ports.len() == wanted.len()
        && ports.iter().zip(wanted.iter()).all(|(port, (number, at))| port.port == *number
            && port.at == *at)
}

#[test]
fn reads_a_topology(rt: HostRuntime) -> Result<(), Fail> {
    let topology = snap_topology::read(rt.alloc(), SQUARE.as_bytes())?;
    assert!(rt; are_names(&topology.switches, &[b"s1", b"s2", b"s3", b"s4"]));
    assert!(rt; topology.links.items() == [(0, 1), (0, 2), (1, 3), (2, 3)].as_slice());
    let ports = [(1, 0), (2, 0), (3, 1), (4, 1), (5, 2), (6, 3)];
    assert!(rt; are_ports(topology.ports.items(), &ports));
    Ok(())
}

#[test]
fn a_link_counts_once(rt: HostRuntime) -> Result<(), Fail> {
    let text = "switches = [\"a\", \"b\", \"c\"]
links = [[\"c\", \"a\"], [\"a\", \"b\"], [\"b\", \"a\"], [\"c\", \"a\"]]
[ports]
10 = \"b\"
9 = \"c\"
";
    let topology = snap_topology::read(rt.alloc(), text.as_bytes())?;
    assert!(rt; topology.links.items() == [(0, 1), (0, 2)].as_slice());
    assert!(rt; are_ports(topology.ports.items(), &[(9, 2), (10, 1)]));
    Ok(())
}
