//! What a command reads that is told a program, a topology and a file that needs both.

ghost use Rattle.std.specs.Prelude.{◌∷◌, [], IfErr, IfOk, IfSome};
ghost use Rattle.snap_core.specs.Programs.{IsWellFormed};
ghost use Rattle.snap_topology.specs.Form.{IsWellFormed as IsTopology};
ghost use Rattle.snap_topology.specs.Tables.{AreRoutes};
ghost use Rattle.snap_cli.specs.Causes.{OnlyReads};
ghost use Rattle.snap_cli.specs.InputsSteps.{GivesInputs};
ghost use Rattle.snap_cli.specs.Statuses.{RefusesWith};

use crate::network::{Network, load_network};
use crate::program::load_program;
use crate::refusal::Refusal;
use crate::text::load_text;
use snap_core::program::Program;
use snap_io::Shelf;
use std::alloc::Global;

/// The most bytes of a placement's file, and of a demand's.
pub const MOST_LAST: u64 = 1_048_576;

/// A program, a topology with its routes, and the text of a file that needs both.
#[derive(Drop)]
pub(crate) struct Inputs {
    pub(crate) program: Program,
    pub(crate) network: Network,
    pub(crate) text: Vec<u8>,
}

/// Reads the files of a program, of a topology and of a placement or a demand, in this order.
pub(crate) fn load_inputs<'a, S: Shelf>(
    alloc: Global,
    program: &'a [u8],
    topology: &'a [u8],
    last: &'a [u8],
    shelf: &mut S,
) -> Result<Inputs, Refusal<'a>>
    ensures gives { IfSome (S.files shelf.old) (λ files. GivesInputs files program.entry.now topology.entry.now last.entry.now result) }
    ensures form { IfOk result (λ i. IsWellFormed i.program) }
    ensures topology { IfOk result (λ i. IsTopology i.network.topology) }
    ensures routes { IfOk result (λ i. AreRoutes i.network.topology i.network.routes) }
    ensures devices { OnlyReads (S.files shelf.old) (S.files shelf.new) (S.faults shelf.old) (S.faults shelf.new) result }
    ensures statuses { IfErr result (RefusesWith (2 ∷ 4 ∷ 5 ∷ 6 ∷ 7 ∷ 8 ∷ [])) }
{
    let program = load_program(alloc, shelf, program)?;
    let network = load_network(alloc, shelf, topology)?;
    let text = load_text(alloc, shelf, last, MOST_LAST)?;
    Ok(Inputs {
        program,
        network,
        text,
    })
}
