//! Lists of facts that share what they have in common.

ghost use Rattle.std.specs.Prelude.{◌≡◌, ◌∷◌, ◌<◌, ◌^◌, [], All, length, MatchOption};
ghost use Rattle.std.specs.Iterator.{YieldsFirstRef, item_count};
ghost use Rattle.snap_context.specs.Known.{TestOver};

use crate::fact::Fact;
use crate::tested::{Tested, either, test_tested};
use std::marker::Model;
use std::rc::Rc;

/// Facts, newest first. Contracts see a list of them.
#[derive(Drop)]
#[cycle(facts)]
pub struct Facts {
    count: usize,
    tested: Tested,
    link: Link,
}

#[derive(Drop)]
#[cycle(facts)]
enum Link {
    End,
    More(Fact, Rc<Facts>),
}

impl Model for Facts {
    ghost use Rattle.std.specs.Prelude.{◌≡◌, All, List, length};
    ghost use Rattle.snap_context.specs.declared.fact.Fact.{Fact};

    ghost Value = { List Fact };

    ghost use Rattle.snap_context.specs.Facts.{facts_of};
    ghost use Rattle.snap_context.specs.Known.{TestOver};

    ghost view = { λ facts. facts_of facts.link };

    ghost invariant = { λ facts. (facts.count ≡ length (facts_of facts.link)) × All (λ f. TestOver facts.tested.comps facts.tested.arrays f.test) (facts_of facts.link) };

    ghost size = { length };

    ghost use Rattle.std.proofs.Common.{arith};

    ghost size_decreases = { λ facts is. Prim.grind (arith) };
}

impl Facts {
    /// No facts.
    pub fn none() -> Facts
        ensures { result ≡ [] }
    {
        Facts {
            count: 0,
            tested: Tested {
                comps: 0,
                arrays: 0,
            },
            link: Link::End,
        }
    }

    /// A fact, and those before it.
    pub fn with(fact: Fact, before: Rc<Facts>) -> Facts
        requires { length before.value < 2 ^ 32 }
        ensures { result ≡ fact ∷ before.value }
    {
        Facts {
            count: before.len() + 1,
            tested: either(test_tested(fact.test.test()), before.tested()),
            link: Link::More(fact, before),
        }
    }

    /// The number of facts.
    pub fn len(&self) -> usize
        ensures { result ≡ length self.now }
    {
        self.count
    }

    /// What the facts are about.
    pub fn tested(&self) -> Tested
        ensures { All (λ f. TestOver result.comps result.arrays f.test) self.now }
    {
        self.tested
    }

    /// The newest fact, and those before it.
    pub fn newest(&self) -> Option<(&Fact, &Facts)>
        ensures { MatchOption result (self.now ≡ []) (λ parts. self.now ≡ parts.0.now ∷ parts.1.now) }
    {
        match &self.link {
            Link::End => None,
            Link::More(fact, before) => Some((fact, before)),
        }
    }

    /// Goes from the newest fact to the oldest.
    pub fn iter(&self) -> Walk<'_>
        ensures { result.left.now ≡ self.now }
    {
        Walk { left: self }
    }
}

/// A way through facts, from the newest to the oldest.
#[derive(Drop)]
pub struct Walk<'a> {
    left: &'a Facts,
}

impl<'a> Iterator for Walk<'a> {
    type Item = &'a Fact;

    ghost next_gives = { YieldsFirstRef (λ walk. walk.left.now) };

    ghost remaining = { item_count (λ walk. walk.left.now) };

    fn next(&mut self) -> Option<&'a Fact> {
        let (fact, before) = self.left.newest()?;
        self.left = before;
        Some(fact)
    }
}
