//! What several of the tests build.

ghost use Rattle.std.specs.Prelude.{IfOk};
ghost use Rattle.snap_core.specs.Programs.{IsWellFormed};
ghost use Rattle.snap_diagrams.specs.Picks.{IsWellFormedDiagram};

use snap_build::policies::policy;
use snap_context::context::{Assumed, Context};
use snap_context::fits::fits;
use snap_core::lists::Atoms;
use snap_core::packet::Packet;
use snap_core::policy::{Atom, Term, Test};
use snap_core::program::Program;
use snap_core::store::Store;
use snap_dep::calls::groups;
use snap_dep::groups::Groups;
use snap_diagrams::leaf::Leaf;
use snap_diagrams::nodes::Nodes;
use snap_diagrams::walking::walk;
use snap_lex::tokens;
use snap_names::resolve;
use snap_parse::parse;
use std::alloc::{AllocError, Global};
use std::test::Fail;

/// The program that a text spells.
pub(crate) fn program(alloc: Global, text: &str) -> Result<Program, Fail>
    ensures { IfOk result IsWellFormed }
{
    let text = text.as_bytes();
    if text.len() > 262_144 {
        return Err("the text is too long")?;
    }
    let tokens = tokens(alloc, text)?;
    let source = parse(alloc, text, &tokens)?;
    Ok(resolve(alloc, text, &source)?)
}

/// A diagram over a context, by the ranks of groups.
#[derive(Drop)]
pub(crate) struct Made {
    pub(crate) groups: Groups,
    pub(crate) ctx: Context,
    pub(crate) nodes: Nodes<Leaf>,
    pub(crate) root: u64,
}

/// The diagram of a program.
pub(crate) fn diagram(alloc: Global, program: &Program) -> Result<Made, Fail>
    requires { IsWellFormed program.now }
    ensures { IfOk result (λ d. IsWellFormedDiagram d.groups d.ctx d.nodes d.root) }
{
    let groups = groups(alloc, program)?;
    let ctx = Context::empty(alloc, program.fields.count())?;
    let mut nodes = Nodes::new(alloc);
    let root = policy(&mut nodes, &groups, &ctx, &program.body)?;
    Ok(Made {
        groups,
        ctx,
        nodes,
        root,
    })
}

/// The diagram of the program that a text spells.
pub(crate) fn drawn(alloc: Global, text: &str) -> Result<Made, Fail>
    ensures { IfOk result (λ d. IsWellFormedDiagram d.groups d.ctx d.nodes d.root) }
{
    let program = program(alloc, text)?;
    diagram(alloc, &program)
}

/// The leaf to which a diagram walks.
pub(crate) fn leaf_at<'a>(d: &'a Made, store: &Store, packet: &Packet) -> Result<&'a Leaf, Fail>
    requires { IsWellFormedDiagram d.now.groups d.now.ctx d.now.nodes d.now.root }
{
    if packet.comps().len() != d.ctx.comps() as usize {
        return Err("the packet has other components")?;
    }
    Ok(walk(&d.nodes, d.root, store, packet))
}

/// What a test asks.
#[derive(Clone, Copy)]
pub(crate) enum Asks {
    /// Whether a component is a number.
    Is(u16, u64),

    /// Whether a component is another one and a number.
    Equal(u16, u16, u64),

    /// Whether an array holds a value at an index of one atom.
    Holds(u16, Atom, Term),

    /// Whether the first array holds a number at an index of two components.
    HoldsAt([u16; 2], u64),
}

/// The test that asks this.
pub(crate) fn test(alloc: Global, asks: Asks) -> Result<Test, AllocError> {
    match asks {
        Asks::Is(comp, num) => Ok(Test::Value { comp, num }),
        Asks::Equal(left, right, plus) => Ok(Test::Equal { left, right, plus }),
        Asks::Holds(var, atom, value) => Ok(Test::State {
            var,
            index: Atoms::new(vec![in alloc; atom]?),
            value,
        }),
        Asks::HoldsAt(comps, num) => Ok(Test::State {
            var: 0,
            index: Atoms::new(vec![in alloc; Atom::Comp(comps[0]), Atom::Comp(comps[1])]?),
            value: Term::Num(num),
        }),
    }
}

/// The fourth component, as a value.
pub(crate) const THREE: Term = Term::Plus { comp: 3, plus: 0 };

/// The fifth one.
pub(crate) const FOUR: Term = Term::Plus { comp: 4, plus: 0 };

/// The third component, as an index.
pub(crate) const AT_TWO: Atom = Atom::Comp(2);

/// The fourth one.
pub(crate) const AT_THREE: Atom = Atom::Comp(3);

/// The number 0, as an index.
pub(crate) const AT_ZERO: Atom = Atom::Num(0);

// The context and one fact more.
fn assumed(ctx: &Context, test: &Test, yes: bool) -> Result<Context, Fail> {
    if !fits(test, ctx.comps()) {
        return Err("the test doesn't fit")?;
    }
    match ctx.assume(test, yes)? {
        Assumed::More(more) => Ok(more),
        Assumed::Impossible => Err("impossible")?,
    }
}

/// The context of these facts over five components.
pub(crate) fn context(alloc: Global, facts: &[(Asks, bool)]) -> Result<Context, Fail> {
    let mut ctx = Context::empty(alloc, 5)?;
    for (asks, yes) in facts {
        let test = test(alloc, *asks)?;
        ctx = assumed(&ctx, &test, *yes)?;
    }
    Ok(ctx)
}

/// Two arrays with numbers at two places each.
pub(crate) fn filled(alloc: Global, first: u64, second: u64) -> Result<Store, Fail> {
    let mut store = Store::new(alloc);
    store.put(0, &[5], first)?;
    store.put(0, &[6], second)?;
    store.put(1, &[5], second)?;
    store.put(1, &[6], first)?;
    Ok(store)
}
