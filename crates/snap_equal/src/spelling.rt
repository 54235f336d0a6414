//! Outs as lists of numbers: what each leaves in the components, as far as a context tells at once.

ghost use Rattle.std.specs.Prelude.{◌≡◌, ◌<◌, All, IfOk, length, true};
ghost use Rattle.snap_core.specs.Fits.{AtomFits};
ghost use Rattle.snap_core.specs.Tests.{OutFits, after_out};
ghost use Rattle.snap_core.specs.declared.policy.Atom.TheVariants.{Comp};
ghost use Rattle.snap_compose.specs.PulledBack.{atom_from};
ghost use Rattle.snap_equal.specs.Made.{AreSpelled, Makes, packet_of};
ghost use Rattle.snap_equal.specs.Told.{On};

use crate::terms::{read, term_of};
use snap_context::context::Context;
use snap_core::NoMemory;
use snap_core::lists::Out;
use snap_core::policy::Atom;
use snap_diagrams::codes::push_term;
use snap_diagrams::numbers::Numbers;
use std::alloc::Global;

/// The atom whose number a component has after an out.
pub(crate) fn atom_in(parts: &[(u16, Atom)], comp: u16, comps: u16) -> Atom
    requires comp { comp < comps }
    requires fits { OutFits comps parts.now }
    ensures atom { result ≡ atom_from (Comp comp) parts.now comp }
    ensures fits { AtomFits comps result }
{
    let mut atom = Atom::Comp(comp);
    for part in parts {
        if part.0 == comp {
            atom = part.1;
        }
    }
    atom
}

// The terms of all components after an out, as a context reads them.
fn spelling(alloc: Global, ctx: &Context, out: &Out) -> Result<Vec<u64>, NoMemory>
    requires { OutFits (length ctx.now.classes) out.now }
    ensures { IfOk result (λ code. On ctx.now (λ m k. packet_of code.items k ≡ after_out out.now k)) }
{
    let comps = ctx.comps();
    let mut code = Vec::new(alloc);
    for comp in 0..comps {
        let atom = atom_in(out.parts(), comp, comps);
        push_term(&mut code, read(ctx, term_of(atom)))?;
    }
    Ok(code)
}

/// The spellings of outs: a number stands for each.
pub(crate) fn spellings(alloc: Global, ctx: &Context, outs: &[Out]) -> Result<Numbers, NoMemory>
    requires { All (OutFits (length ctx.now.classes)) outs.now }
    ensures { IfOk result (AreSpelled ctx.now outs.now) }
{
    let mut spelled = Numbers::new(alloc);
    for out in outs {
        let code = spelling(alloc, ctx, out)?;
        spelled.put(code, 1)?;
    }
    Ok(spelled)
}

/// Whether an out is spelled as one of others, so that one of them surely makes its packet.
pub(crate) fn is_spelled(
    alloc: Global,
    ctx: &Context,
    others: &[Out],
    spelled: &Numbers,
    out: &Out,
) -> Result<bool, NoMemory>
    requires out { OutFits (length ctx.now.classes) out.now }
    requires spelled { AreSpelled ctx.now others.now spelled.now }
    ensures { IfOk result (λ yes. yes ≡ true → On ctx.now (λ m k. Makes others.now k (after_out out.now k))) }
{
    let code = spelling(alloc, ctx, out)?;
    Ok(spelled.get(&code).is_some())
}
