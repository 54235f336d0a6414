//! Names: from the tree of a program to its core program.
#![tactic(auto)]

ghost use Rattle.std.specs.Prelude.{◌≡◌, ◌≢◌, IfOk, IfErr, Ok, Err};
ghost use Rattle.snap_core.specs.Programs.{IsBounded, IsWellFormed};
ghost use Rattle.snap_parse.specs.Tree.{source_tree};
ghost use Rattle.snap_names.specs.Declarations.{resolved, core_program};
ghost use Rattle.snap_names.specs.Texts.{HasTree};
ghost use Rattle.snap_names.specs.declared.fault.NameFault.TheVariants.{NoMemory};

mod copies;
mod declarations;
pub mod fault;
pub mod laws;
mod leaves;
mod limits;
mod parts;
mod places;
mod policies;
mod predicates;
mod repeated;
mod scope;
mod singles;
mod sizes;
mod values;

pub use fault::NameFault;
use scope::{Scope, Sizes};
use snap_core::program::Program;
use snap_parse::Source;
use std::alloc::Global;

/// The core program of a tree over its text.
///
/// Refused is the first broken naming rule in text order, `let` bodies that aren't used among them; or, where none is
/// broken, the first count that passes its limit: 64 components, 64 arrays, 8 atoms of one index, 2,000 core nodes, a
/// weight of 16,777,216.
///
/// What is given is bounded: at most 64 arrays, and no component or array beyond those of the program. Where the tree is
/// the text's, the program is in form: names are names and differ, and each array is indexed in one way.
///
/// # Errors
///
/// `Limit` at a count, each other fault at its place in the text; `NoMemory` for want of memory.
pub fn resolve(alloc: Global, text: &[u8], source: &Source) -> Result<Program, NameFault>
    ensures ok { IfOk result (λ p. resolved text.now (source_tree source.now) ≡ Ok (core_program p)) }
    ensures bounded { IfOk result IsBounded }
    ensures well_formed { HasTree text.now (source_tree source.now) → IfOk result IsWellFormed }
    ensures refused { IfErr result (λ f. f ≢ NoMemory → resolved text.now (source_tree source.now) ≡ Err f) }
{
    let mut scope = Scope::ports(alloc, text)?;
    let mut tally = Sizes {
        arities: Vec::new(alloc),
        nodes: 0,
    };
    for decl in &source.decls {
        scope.declare(&mut tally, decl)?;
    }
    let body = scope.body(&mut tally, &source.policy)?;
    scope.limited(tally, body)
}
