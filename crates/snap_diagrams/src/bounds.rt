//! Whether tests and leaves lie within the bounds that groups and a context tell.

ghost use Rattle.std.specs.Prelude.{◌↔◌, ◌<◌, ◌≤◌, ◌^◌, All, IsTrue};
ghost use Rattle.snap_core.specs.Fits.{IndexFits};
ghost use Rattle.snap_core.specs.Tests.{OutFits, TermFits, PartFits};
ghost use Rattle.snap_core.specs.Ranges.{TermInRange};
ghost use Rattle.snap_diagrams.specs.Bounds.{IsIndex, TestIn, UpdateIn, LeafIn};
ghost use Rattle.snap_diagrams.specs.declared.leaf.Leaf.TheVariants.{Go as Goes};
ghost use Rattle.snap_diagrams.specs.Picks.{sizes};

use crate::leaf::{Go, Leaf};
use snap_context::context::Context;
use snap_core::lists::{Atoms, Out};
use snap_core::policy::{Atom, Term, Test, Update};
use snap_dep::groups::Groups;

fn atoms_fit(index: &Atoms, comps: u16) -> bool
    ensures { IsTrue result ↔ IndexFits comps index.now }
{
    index.items().iter().all(|atom| atom.fits(comps as usize))
}

fn index_fits(index: &Atoms, comps: u16) -> bool
    ensures { IsTrue result ↔ IsIndex comps index.now }
{
    let atoms = index.items().len();
    1 <= atoms && atoms <= 8 && atoms_fit(index, comps)
}

fn term_fits(term: Term, comps: u16) -> bool
    ensures { IsTrue result ↔ (TermFits comps term × TermInRange term) }
{
    match term {
        Term::Num(_) => true,
        Term::Plus { comp, .. } => comp < comps,
    }
}

fn part_fits(part: &(u16, Atom), comps: u16) -> bool
    ensures { IsTrue result ↔ PartFits comps part.now }
{
    part.0 < comps && part.1.fits(comps as usize)
}

fn out_fits(out: &Out, comps: u16) -> bool
    ensures { IsTrue result ↔ OutFits comps out.now }
{
    out.parts().iter().all(|part| part_fits(part, comps))
}

fn update_fits(groups: &Groups, ctx: &Context, update: &Update) -> bool
    ensures { IsTrue result ↔ UpdateIn (sizes groups.now ctx.now) update.now }
{
    (update.var as usize) < groups.count()
        && index_fits(&update.index, ctx.comps())
        && update.op.fits(ctx.comps() as usize)
}

/// Whether each out has components and atoms within bounds.
pub fn outs_fit(outs: &[Out], comps: u16) -> bool
    ensures { IsTrue result ↔ All (OutFits comps) outs.now }
{
    outs.iter().all(|out| out_fits(out, comps))
}

fn updates_fit(groups: &Groups, ctx: &Context, updates: &[Update]) -> bool
    ensures { IsTrue result ↔ All (UpdateIn (sizes groups.now ctx.now)) updates.now }
{
    updates
        .iter()
        .all(|update| update_fits(groups, ctx, update))
}

fn is_set_of(set: u64, arrays: usize) -> bool
    requires { arrays ≤ 64 }
    ensures { IsTrue result ↔ (set < 2 ^ arrays) }
{
    arrays == 64 || set < 1 << arrays
}

fn go_fits(groups: &Groups, ctx: &Context, go: &Go) -> bool
    ensures { IsTrue result ↔ LeafIn (sizes groups.now ctx.now) (Goes go.now) }
{
    outs_fit(go.outs.items(), ctx.comps())
        && updates_fit(groups, ctx, go.ups.items())
        && is_set_of(go.reads, groups.count())
        && is_set_of(go.writes, groups.count())
}

/// Whether a leaf's components, variables, indices and logs lie within the bounds.
pub fn leaf_fits(groups: &Groups, ctx: &Context, leaf: &Leaf) -> bool
    ensures { IsTrue result ↔ LeafIn (sizes groups.now ctx.now) leaf.now }
{
    match leaf {
        Leaf::Race => true,
        Leaf::Go(go) => go_fits(groups, ctx, go),
    }
}

/// Whether a test's components are the context's, with the lower one left in a test of two, its
/// variable is one of the groups', and its index has from one to eight atoms.
pub fn test_fits(groups: &Groups, ctx: &Context, test: &Test) -> bool
    ensures { IsTrue result ↔ TestIn (sizes groups.now ctx.now) test.now }
{
    let comps = ctx.comps();
    match test {
        Test::Value { comp, num } => {
            let _num = *num;
            *comp < comps
        }
        Test::Equal { left, right, plus } => {
            let _plus = *plus;
            *left < *right && *right < comps
        }
        Test::State { var, index, value } => {
            (*var as usize) < groups.count() && index_fits(index, comps) && term_fits(*value, comps)
        }
    }
}
