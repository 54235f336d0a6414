//! Examples of contexts.

ghost use Rattle.std.specs.Prelude.{◌≡◌, ◌<◌, ℕ, IfOk, true, false, length};
ghost use Rattle.std.specs.List.{All};
ghost use Rattle.snap_core.specs.declared.place.Place.{Place};
ghost use Rattle.snap_core.specs.Arrays.{put};
ghost use Rattle.snap_core.specs.Cells.{arrays_of};
ghost use Rattle.snap_context.specs.Classes.{IsTest};
ghost use Rattle.snap_context.specs.Meets.{IsMet, Meets};
ghost use Rattle.snap_context.specs.declared.ask.Ask.TheVariants.{Component, At};
ghost use Rattle.snap_context.specs.Asks.{IsSettled};

use crate::ask::{Ask, Settled, choose};
use crate::context::Context;
use crate::fact::Fact;
use snap_core::NoMemory;
use snap_core::atoms::index_on;
use snap_core::lists::Index;
use snap_core::packet::Packet;
use snap_core::place::Place;
use snap_core::policy::{Term, Test};
use snap_core::store::Store;
use std::alloc::Global;

/// An example in the making: a packet, a store, and what the context grew to. All models of that
/// have the packet.
#[derive(Drop)]
pub struct ExampleDraft {
    pub packet: Packet,
    pub store: Store,
    pub grown: Option<Context>,
}

ghost use Rattle.snap_core.specs.Inputs.{IsStore, IsPacket, IsZeroFrom};
ghost use Rattle.snap_context.specs.Models.{current, FactBelow, IsDraft, Settles, SettlesFact};

// A context, or what it grew to.
fn current<'a>(ctx: &'a Context, grown: &'a Option<Context>) -> &'a Context
    ensures { result.now ≡ current ctx.now grown.now }
{
    match grown {
        Some(more) => more,
        None => ctx,
    }
}

// Settles one component: at the number that it must have, if there is one.
fn choose_component(alloc: Global, ctx: &Context, comp: u16) -> Result<Settled, NoMemory>
    requires { comp < length ctx.now.classes }
    ensures { IfOk result (IsSettled ctx.now (Component comp)) }
{
    let guess = match ctx.class(comp) {
        Term::Num(num) => num,
        Term::Plus { .. } => 0,
    };
    choose(alloc, ctx, &Ask::Component(comp), guess)
}

// Settles the packet, with an empty store.
fn choose_packet(alloc: Global, ctx: &Context) -> Result<ExampleDraft, NoMemory>
    ensures draft { IfOk result (IsDraft ctx.now) }
    ensures empty { IfOk result (λ e. (q : Place) → arrays_of e.store q ≡ 0) }
{
    let mut comps = Vec::new(alloc);
    let mut grown: Option<Context> = None;
    for comp in 0..ctx.comps() {
        let settled = choose_component(alloc, current(ctx, &grown), comp)?;
        comps.push(settled.num)?;
        grown = Some(settled.ctx);
    }
    Ok(ExampleDraft {
        packet: Packet::new(comps),
        store: Store::new(alloc),
        grown,
    })
}

// Settles the place of a state fact: at the number that the fact says, or else at the store's.
fn choose_fact(
    alloc: Global,
    ctx: &Context,
    packet: &Packet,
    store: &mut Store,
    fact: &Fact,
) -> Result<Option<Settled>, NoMemory>
    requires packet { length packet.now ≡ length ctx.now.classes }
    requires test { IsTest (length packet.now) fact.now.test }
    ensures { IfOk result (SettlesFact ctx.now fact.now packet.now store.old store.new) }
{
    let Test::State { var, index, value } = fact.test.test() else {
        return Ok(None);
    };
    let index = Index::new(index_on(alloc, index, packet)?);
    let guess = if fact.yes {
        value.value(packet)
    } else {
        store.get(*var, index.items())
    };
    let ask = Ask::At(Place { var: *var, index });
    let settled = choose(alloc, ctx, &ask, guess)?;
    if let Ask::At(place) = &ask {
        store.put(place.var, place.index.items(), settled.num)?;
    }
    Ok(Some(settled))
}

// Settles the places of the state facts with this answer.
fn choose_places(
    alloc: Global,
    ctx: &Context,
    mut draft: ExampleDraft,
    yes: bool,
) -> Result<ExampleDraft, NoMemory>
    requires { IsDraft ctx.now draft }
    ensures { IfOk result (Settles ctx.now yes ctx.now.facts draft) }
{
    for fact in ctx.facts().iter() {
        if fact.yes != yes {
            continue;
        }
        let known = current(ctx, &draft.grown);
        if let Some(settled) = choose_fact(alloc, known, &draft.packet, &mut draft.store, fact)? {
            draft.grown = Some(settled.ctx);
        }
    }
    Ok(draft)
}

// What a context grew to has a model.
fn know_met(ctx: &Context)
    ensures { IsMet (length ctx.now.classes) ctx.now.facts }
{
    let _facts = ctx.facts();
}

/// A store and a packet that meet every fact of the context. Refuses for memory alone.
pub fn example(alloc: Global, ctx: &Context) -> Result<(Store, Packet), NoMemory>
    ensures facts { IfOk result (λ e. Meets ctx.now.facts (arrays_of e.0) e.1) }
    ensures store { IfOk result (λ e. IsStore (arrays_of e.0)) }
    ensures packet { IfOk result (λ e. IsPacket (length ctx.now.classes) e.1) }
    ensures only { IfOk result (λ e. (n : ℕ) → All (FactBelow n) ctx.now.facts → IsZeroFrom n (arrays_of e.0)) }
{
    let draft = choose_packet(alloc, ctx)?;
    // What a fact denies may be what another says, so these come first.
    let draft = choose_places(alloc, ctx, draft, true)?;
    let draft = choose_places(alloc, ctx, draft, false)?;
    know_met(current(ctx, &draft.grown));
    Ok((draft.store, draft.packet))
}
