ghost use Rattle.std.specs.Prelude.{◌≡◌, IfOk, length};
ghost use Rattle.snap_dep.specs.Ranks.{IsGrouping};
ghost use Rattle.snap_topology.specs.Form.{IsWellFormed as IsTopology};

use crate::given::{Setting, program, three_arrays};
use snap_core::lists::Names;
use snap_placement::placement::{PlaceFault, Placement};
use std::alloc::Global;
use std::test::Fail;

// A placement of the three arrays.
fn placement(alloc: Global, setting: &Setting, text: &str) -> Result<Placement, PlaceFault>
    requires groups { IsGrouping setting.now.program.body (length setting.now.program.arrays) setting.now.groups }
    requires form { IsTopology setting.now.topology }
    requires three { length setting.now.program.arrays ≡ 3 }
    ensures { IfOk result (λ owners. length owners ≡ 3) }
{
    let (groups, topology) = (&setting.groups, &setting.topology);
    snap_placement::read(alloc, text.as_bytes(), &setting.program, groups, topology)
}

// The switches of the three arrays.
fn owners(alloc: Global, setting: &Setting, text: &str) -> Result<[u16; 3], PlaceFault>
    requires groups { IsGrouping setting.now.program.body (length setting.now.program.arrays) setting.now.groups }
    requires form { IsTopology setting.now.topology }
    requires three { length setting.now.program.arrays ≡ 3 }
{
    let placement = placement(alloc, setting, text)?;
    Ok([placement.owner(0), placement.owner(1), placement.owner(2)])
}

// The switches of the three arrays in the square.
fn placed(alloc: Global, text: &str) -> Result<[u16; 3], Fail> {
    let setting = three_arrays(alloc)?;
    Ok(owners(alloc, &setting, text)?)
}

#[test]
fn gives_each_array_its_switch(rt: HostRuntime) -> Result<(), Fail> {
    let text = "orphan = \"s4\"\nsusp-client = \"s4\"\nblacklist = \"s2\"";
    assert_eq!(rt; placed(rt.alloc(), text)?, [3, 3, 1]);
    Ok(())
}

// The arrays of a program.
fn arrays(alloc: Global, text: &str) -> Result<Names, Fail> {
    Ok(program(alloc, text)?.arrays)
}

// The switches of a topology.
fn switches(alloc: Global, text: &str) -> Result<Names, Fail> {
    Ok(snap_topology::read(alloc, text.as_bytes())?.switches)
}

// The text of a placement of a program's arrays on the switches of a topology.
fn printed(alloc: Global, program: &str, topology: &str, owners: &[u16]) -> Result<Vec<u8>, Fail> {
    let arrays = arrays(alloc, program)?;
    let switches = switches(alloc, topology)?;
    if arrays.items().len() != owners.len() {
        return Err("not an owner for each array")?;
    }
    Ok(snap_placement::print(alloc, &arrays, &switches, owners, 40)?)
}

#[test]
fn prints_a_line_for_each_array(rt: HostRuntime) -> Result<(), Fail> {
    let arrays = "array s; array a.b; array t-1_x; id";
    let switches = "switches = [\"one\", \"2\"]\nlinks = []\nports = {}";
    let text = printed(rt.alloc(), arrays, switches, &[1, 0, 1])?;
    assert_eq!(rt;
        text.as_slice(),
        b"# cost 40\ns = \"2\"\n\"a.b\" = \"one\"\nt-1_x = \"2\"\n".as_slice()
    );
    Ok(())
}
