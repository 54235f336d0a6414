//! What several of the tests build.

ghost use Rattle.std.specs.Prelude.{◌≡◌, IfOk, length};
ghost use Rattle.snap_core.specs.Programs.{IsBounded, IsWellFormed};
ghost use Rattle.snap_dep.specs.Ranks.{IsGrouping};
ghost use Rattle.snap_topology.specs.Form.{IsWellFormed as IsTopology};

use snap_core::program::Program;
use snap_dep::calls::groups;
use snap_dep::groups::Groups;
use snap_lex::tokens;
use snap_names::resolve;
use snap_parse::parse;
use snap_topology::topology::Topology;
use std::alloc::Global;
use std::test::Fail;

/// Four switches in a square, with six ports.
pub(crate) const SQUARE: &str = "switches = [\"s1\", \"s2\", \"s3\", \"s4\"]
links = [[\"s1\", \"s2\"], [\"s1\", \"s3\"], [\"s2\", \"s4\"], [\"s3\", \"s4\"]]
[ports]
1 = \"s1\"
2 = \"s1\"
3 = \"s2\"
4 = \"s2\"
5 = \"s3\"
6 = \"s4\"
";

// Three arrays, of which no two are tied.
const ARRAYS: &str = "array orphan; array susp-client; array blacklist; id";

/// The program that a text spells.
pub(crate) fn program(alloc: Global, text: &str) -> Result<Program, Fail>
    ensures bounded { IfOk result IsBounded }
    ensures well_formed { IfOk result IsWellFormed }
{
    let text = text.as_bytes();
    if text.len() > 262_144 {
        return Err("the text is too long")?;
    }
    let tokens = tokens(alloc, text)?;
    let source = parse(alloc, text, &tokens)?;
    Ok(resolve(alloc, text, &source)?)
}

/// A program's arrays in their groups, and switches for them.
#[derive(Drop)]
pub(crate) struct Setting {
    pub(crate) program: Program,
    pub(crate) groups: Groups,
    pub(crate) topology: Topology,
}

/// Three arrays, of which no two are tied, and the square.
pub(crate) fn three_arrays(alloc: Global) -> Result<Setting, Fail>
    ensures groups { IfOk result (λ setting. IsGrouping setting.program.body (length setting.program.arrays) setting.groups) }
    ensures three { IfOk result (λ setting. length setting.program.arrays ≡ 3) }
    ensures form { IfOk result (λ setting. IsTopology setting.topology) }
{
    let program = program(alloc, ARRAYS)?;
    if program.arrays.items().len() != 3 {
        return Err("not three arrays")?;
    }
    let groups = groups(alloc, &program)?;
    let topology = snap_topology::read(alloc, SQUARE.as_bytes())?;
    Ok(Setting {
        program,
        groups,
        topology,
    })
}
