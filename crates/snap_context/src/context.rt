//! Contexts.

ghost use Rattle.std.specs.Prelude.{◌≡◌, ◌<◌, ◌≤◌, ◌^◌, ℕ, All, IfOk, IfSome, List, MatchBool, [], ◌∷◌, length, slice_index};
ghost use Rattle.snap_core.specs.Tests.{TestFits, term_value};
ghost use Rattle.snap_context.specs.Classes.{IsClass, IsTest, class_of, index_of};
ghost use Rattle.snap_context.specs.declared.fact.Fact.{Fact as AFact};
ghost use Rattle.snap_context.specs.Known.{IsKnown};
ghost use Rattle.snap_context.specs.Lean.{IsLean};
ghost use Rattle.snap_context.specs.Meets.{IsMet, Under};
ghost use Rattle.snap_context.specs.View.{IsContext};

use crate::classes::{class_at, first_classes};
use crate::close::closed;
use crate::fact::{Fact, Shared};
use crate::facts::Facts;
use crate::known::known;
use crate::named::named;
use snap_core::NoMemory;
use snap_core::bits::know_test;
use snap_core::policy::{Term, Test};
use std::alloc::Global;
use std::marker::Model;
use std::rc::Rc;

/// Facts of a store and a packet, which some store and packet meet. Contracts see the facts and the
/// class of each component. At most 64 components and 4294967295 facts.
#[derive(Drop)]
pub struct Context {
    classes: Vec<Term>,
    facts: Rc<Facts>,
}

impl Model for Context {
    ghost use Rattle.snap_context.specs.View.{View, IsContext};

    ghost Value = { View };

    ghost view = { λ c. record { facts = c.facts.value; classes = c.classes.items } };

    ghost invariant = { λ c. IsContext (record { facts = c.facts.value; classes = c.classes.items }) };
}

/// What comes of one fact more.
#[derive(Drop)]
pub enum Assumed {
    /// No store and packet meet all facts.
    Impossible,
    More(Context),
}

/// What a context says of a test.
#[derive(Clone, Copy, Debug, PartialEq, Eq)]
pub enum Verdict {
    /// All stores and packets that meet the facts pass.
    Always,
    /// None of them passes.
    Never,
    /// Some pass and some don't.
    Unsure,
}

// The most facts that a context holds.
const MOST_FACTS: usize = 4_294_967_295;

// Facts that contexts can share. Refuses for memory alone.
fn shared(alloc: Global, facts: Facts) -> Result<Rc<Facts>, NoMemory>
    ensures { IfOk result (λ shared. shared.value ≡ facts) }
{
    match Rc::new(alloc, facts) {
        Ok(shared) => Ok(shared),
        Err(_) => Err(NoMemory),
    }
}

// Facts that contexts can share: these, the first of them the newest. Refuses for memory alone.
fn list_of(alloc: Global, mut list: Vec<Fact>) -> Result<Rc<Facts>, NoMemory>
    requires { length list.items < 2 ^ 32 }
    ensures { IfOk result (λ facts. facts.value ≡ list.items) }
{
    let mut facts = shared(alloc, Facts::none())?;
    while let Some(fact) = list.pop() {
        facts = shared(alloc, Facts::with(fact, facts))?;
    }
    Ok(facts)
}

impl Context {
    ghost use Rattle.snap_context.specs.Answers.{IsAssumed, IsMetWith, IsVerdict, NoneMeetsWith};

    /// No facts over so many components. Refuses for memory alone.
    pub fn empty(alloc: Global, comps: u16) -> Result<Context, NoMemory>
        requires { comps ≤ 64 }
        ensures { IfOk result (λ c. (c.facts ≡ []) × (length c.classes ≡ comps)) }
    {
        let classes = first_classes(alloc, comps)?;
        let facts = shared(alloc, Facts::none())?;
        Ok(Context { classes, facts })
    }

    /// The number of components.
    pub fn comps(&self) -> u16
        ensures { result ≡ length self.now.classes }
    {
        self.classes.len() as u16
    }

    /// The facts, newest first.
    pub fn facts(&self) -> &Facts
        ensures facts { result.now ≡ self.now.facts }
        ensures few { length self.now.facts < 2 ^ 32 }
        ensures met { IsMet (length self.now.classes) self.now.facts }
        ensures tests { All (λ f. IsTest (length self.now.classes) f.test) self.now.facts }
        ensures context { IsContext self.now }
    {
        &self.facts
    }

    /// The class of a component. A number says that all that meet the facts have that number there;
    /// a component with an offset says that they have that component with the offset there, and its
    /// own class is then itself.
    pub fn class(&self, comp: u16) -> Term
        requires { comp < length self.now.classes }
        ensures class { result ≡ class_of self.now.classes comp }
        ensures root { IsClass self.now.classes result }
        ensures told { Under (length self.now.classes) self.now.facts (λ m k. term_value result k ≡ slice_index k comp) }
    {
        class_at(&self.classes, comp)
    }

    /// The context with one fact more: a test, and whether it passes. Refuses for
    /// memory alone, and past 4294967295 facts a growth as for want of it.
    pub fn assume(&self, test: &Test, yes: bool) -> Result<Assumed, NoMemory>
        requires fits { TestFits (length self.now.classes) test.now }
        requires short { length (index_of test.now) ≤ 8 }
        ensures { IfOk result (IsAssumed self.now test.now yes) }
    {
        if self.facts.len() >= MOST_FACTS {
            return Err(NoMemory);
        }
        know_test(test);
        let alloc = *self.classes.allocator();
        let fact = Fact {
            test: Shared::copy_of(alloc, test)?,
            yes,
        };
        match closed(alloc, &self.classes, &self.facts, &fact)? {
            None => Ok(Assumed::Impossible),
            Some(classes) => {
                let facts = shared(alloc, Facts::with(fact, self.facts.clone()?))?;
                Ok(Assumed::More(Context { classes, facts }))
            }
        }
    }

    // Whether nothing meets the facts and a new one.
    fn refutes(&self, fact: &Fact) -> Result<bool, NoMemory>
        requires fits { IsTest (length self.now.classes) fact.now.test }
        ensures { IfOk result (λ none. MatchBool none (NoneMeetsWith self.now fact.now.test fact.now.yes) (IsMetWith self.now fact.now.test fact.now.yes)) }
    {
        let alloc = *self.classes.allocator();
        match closed(alloc, &self.classes, &self.facts, fact)? {
            None => Ok(true),
            Some(_) => Ok(false),
        }
    }

    /// What is known about the components and arrays of two sets, behind a label. Beside contexts of which
    /// the same is known, the same facts about these are met (`laws::known_alike`). None where facts about
    /// these can't be told apart from others; no clause says where it isn't none, so a caller must do without.
    /// Refuses for memory alone.
    pub fn known(&self, label: u64, comps: u64, arrays: u64) -> Result<Option<Vec<u64>>, NoMemory>
        ensures known { IfOk result (λ o. IfSome o (λ key. (q : List ℕ) × (key.items ≡ label ∷ q) × IsKnown self.now comps arrays q)) }
        ensures context { IsContext self.now }
    {
        let alloc = *self.classes.allocator();
        let classes = named(alloc, &self.classes, comps)?;
        known(alloc, &classes, &self.facts, label, comps, arrays)
    }

    /// The context of these of its facts alone. Those that it loses are of numbers at places of numbers, and those that
    /// stay are at other places, so the classes stay as they are. Refuses for memory alone.
    pub fn with_only(&self, stay: Vec<Fact>) -> Result<Context, NoMemory>
        requires { (gone : List AFact) × IsLean self.now.facts stay.items gone }
        ensures facts { IfOk result (λ c. c.facts ≡ stay.items) }
        ensures classes { IfOk result (λ c. c.classes ≡ self.now.classes) }
    {
        let alloc = *self.classes.allocator();
        let classes = Vec::from_slice(alloc, &self.classes)?;
        let facts = list_of(alloc, stay)?;
        Ok(Context { classes, facts })
    }

    /// Whether all, none or some of the stores and packets that meet the facts pass the test.
    /// Refuses for memory alone.
    pub fn decide(&self, test: &Test) -> Result<Verdict, NoMemory>
        requires fits { TestFits (length self.now.classes) test.now }
        requires short { length (index_of test.now) ≤ 8 }
        ensures { IfOk result (IsVerdict self.now test.now) }
    {
        // A read of a field tells the prover that some store and packet meet the facts.
        let _facts = &self.facts;
        know_test(test);
        let passes = Fact {
            test: Shared::copy_of(*self.classes.allocator(), test)?,
            yes: true,
        };
        if self.refutes(&passes)? {
            return Ok(Verdict::Never);
        }
        let fails = Fact {
            test: passes.test,
            yes: false,
        };
        if self.refutes(&fails)? {
            return Ok(Verdict::Always);
        }
        Ok(Verdict::Unsure)
    }
}
