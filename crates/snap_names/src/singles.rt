// Tests, assignments and updates, and the bodies that lone names stand for.

ghost use Rattle.std.specs.Prelude.{◌≡◌, ◌+◌, ◌-◌, Ok, Err, true, option_map, IfOk, IfErr, OnOk};
ghost use Rattle.snap_core.specs.declared.policy.Atom.TheVariants.{Num};
ghost use Rattle.snap_core.specs.declared.policy.Op.TheVariants.{Put, Add};
ghost use Rattle.snap_names.specs.Core.{CorePolicy, core_test, core_policy, set, seq, whole_test};
ghost use Rattle.snap_names.specs.Declarations.{capped};
ghost use Rattle.snap_names.specs.Parts.{IsPart, IsBody, words_of, Refuses, Reads, ReadsSimple};
ghost use Rattle.snap_names.specs.Reading.{named, tested, changed, subtraction};
ghost use Rattle.snap_names.specs.Senses.{after, split_test, field_equals, field_gets, place, constant, array_atom};
ghost use Rattle.snap_names.specs.declared.fault.NameFault.TheVariants.{NoMemory};

use crate::copies::copy_policy;
use crate::fault::NameFault;
use crate::parts::MOST_NODES;
use crate::scope::{Body, Part, Scope, Sense, Sizes};
use crate::values::{host, net};
use snap_core::policy::{Atom, Op, Pol, Pred, Update};
use snap_parse::{Span, Value};
use std::alloc::Global;

// A copy of a policy, where there is room for it.
fn copy_if(alloc: Global, room: bool, policy: &Option<Pol>) -> Result<Option<Pol>, NameFault>
    ensures ok { IfOk result (λ r. room ≡ true → option_map core_policy r ≡ option_map core_policy policy.now) }
    ensures err { IfErr result (λ f. f ≡ NoMemory) }
{
    if !room {
        return Ok(None);
    }
    match policy {
        Some(policy) => {
            let copy = copy_policy(alloc, policy)?;
            Ok(Some(copy))
        }
        None => Ok(None),
    }
}

impl Sizes {
    // A copy of the body of a `let`.
    fn used(&mut self, alloc: Global, body: &Body) -> Result<Part, NameFault>
        ensures part { IfOk result (λ part. (p : CorePolicy) → IsBody body.now p → IsPart p self.new.nodes part) }
        ensures nodes { OnOk result (self.new.nodes ≡ capped (self.old.nodes + body.now.nodes)) }
        ensures arities { OnOk result (self.new.arities.items ≡ self.old.arities.items) }
        ensures err { IfErr result (λ f. f ≡ NoMemory) }
    {
        self.count(body.nodes);
        let room = self.nodes <= MOST_NODES;
        let policy = copy_if(alloc, room, &body.part.policy)?;
        Ok(Part {
            is_test: body.part.is_test,
            weight: body.part.weight,
            policy,
        })
    }
}

impl Scope<'_> {
    // A test of the two components of a split field.
    fn whole_test(&self, comps: (u16, u16), prefix: u8, address: u64) -> Result<Pred, NameFault>
        ensures ok { IfOk result (λ x. core_test x ≡ whole_test comps.0 comps.1 prefix address) }
        ensures err { IfErr result (λ f. f ≡ NoMemory) }
    {
        let left = Pred::Field {
            comp: comps.0,
            num: net(prefix, address),
        };
        let right = Pred::Field {
            comp: comps.1,
            num: host(prefix, address),
        };
        let left = Box::new(self.alloc, left)?;
        let right = Box::new(self.alloc, right)?;
        Ok(Pred::And(left, right))
    }

    // A test of a split field.
    fn split_test(&self, comps: (u16, u16), prefix: u8, value: Value) -> Result<Pred, NameFault>
        ensures ok { IfOk result (λ x. split_test (words_of self.now) comps.0 comps.1 prefix value ≡ Ok (core_test x)) }
        ensures err { Refuses (split_test (words_of self.now) comps.0 comps.1 prefix value) result }
    {
        match value {
            Value::Prefix { address, length } => {
                let num = self.split_net(prefix, address, length)?;
                Ok(Pred::Field { comp: comps.0, num })
            }
            Value::Literal(_) | Value::Name(_) => {
                let address = self.split_address(value)?;
                self.whole_test(comps, prefix, address)
            }
        }
    }

    /// `name = value` of a field
    pub(crate) fn field_equals(&self, name: Span, value: Value) -> Result<Pred, NameFault>
        ensures ok { IfOk result (λ x. field_equals (words_of self.now) name value ≡ Ok (core_test x)) }
        ensures err { Refuses (field_equals (words_of self.now) name value) result }
    {
        match self.sense(name)? {
            Sense::Plain(comp) => {
                let num = self.constant(value)?;
                Ok(Pred::Field { comp, num })
            }
            Sense::Split { net, host, prefix } => self.split_test((net, host), prefix, value),
            _ => Err(NameFault::Kind { at: name.from }),
        }
    }

    // An assignment of the two components of a split field.
    fn split_gets(&self, comps: (u16, u16), from: (Atom, Atom)) -> Result<Pol, NameFault>
        ensures ok { IfOk result (λ p. core_policy p ≡ seq (set comps.0 from.0) (set comps.1 from.1)) }
        ensures err { IfErr result (λ f. f ≡ NoMemory) }
    {
        let first = Pol::Set {
            comp: comps.0,
            from: from.0,
        };
        let second = Pol::Set {
            comp: comps.1,
            from: from.1,
        };
        let first = Box::new(self.alloc, first)?;
        let second = Box::new(self.alloc, second)?;
        Ok(Pol::Seq(first, second))
    }

    /// `name <- value` of a field
    pub(crate) fn field_gets(&self, name: Span, value: Value) -> Result<Pol, NameFault>
        ensures ok { IfOk result (λ p. field_gets (words_of self.now) name value ≡ Ok (core_policy p)) }
        ensures err { Refuses (field_gets (words_of self.now) name value) result }
    {
        match self.sense(name)? {
            Sense::Plain(comp) => {
                let from = self.field_atom(value)?;
                Ok(Pol::Set { comp, from })
            }
            Sense::Split { net, host, prefix } => {
                let from = self.split_atoms(prefix, value)?;
                self.split_gets((net, host), from)
            }
            _ => Err(NameFault::Kind { at: name.from }),
        }
    }

    /// A lone name.
    pub(crate) fn named(&self, tally: &mut Sizes, name: Span) -> Result<Part, NameFault>
        ensures { Reads self.now (λ e arities. after (named e name) (λ p. Ok (p, arities))) tally.old tally.new result }
    {
        match self.sense(name)? {
            Sense::Policy(number) => match self.lets.get(number) {
                Some(body) => tally.used(self.alloc, body),
                None => Err(NameFault::Kind { at: name.from }),
            },
            _ => Err(NameFault::Kind { at: name.from }),
        }
    }

    /// `name places`
    pub(crate) fn bare(
        &self,
        tally: &mut Sizes,
        name: Span,
        places: &[Value],
    ) -> Result<Pol, NameFault>
        ensures policy { ReadsSimple (after (place (words_of self.now) tally.old.arities.items name places.now) (tested (Ok (Num 1)))) tally.new result }
        ensures nodes { tally.new.nodes ≡ tally.old.nodes }
    {
        let place = self.place(tally, name, places)?;
        Ok(Pol::Filter(Pred::State {
            var: place.var,
            index: place.index,
            value: Atom::Num(1),
        }))
    }

    /// `name places = value`
    pub(crate) fn array_test(
        &self,
        tally: &mut Sizes,
        name: Span,
        places: &[Value],
        value: Value,
    ) -> Result<Pol, NameFault>
        ensures policy { ReadsSimple (after (place (words_of self.now) tally.old.arities.items name places.now) (tested (array_atom (words_of self.now) value))) tally.new result }
        ensures nodes { tally.new.nodes ≡ tally.old.nodes }
    {
        let place = self.place(tally, name, places)?;
        let value = self.array_atom(value)?;
        Ok(Pol::Filter(Pred::State {
            var: place.var,
            index: place.index,
            value,
        }))
    }

    /// `name places <- value`
    pub(crate) fn array_set(
        &self,
        tally: &mut Sizes,
        name: Span,
        places: &[Value],
        value: Value,
    ) -> Result<Pol, NameFault>
        ensures policy { ReadsSimple (after (place (words_of self.now) tally.old.arities.items name places.now) (changed (after (array_atom (words_of self.now) value) (λ a. Ok (Put a))))) tally.new result }
        ensures nodes { tally.new.nodes ≡ tally.old.nodes }
    {
        let place = self.place(tally, name, places)?;
        let atom = self.array_atom(value)?;
        Ok(Pol::Change(Update {
            var: place.var,
            index: place.index,
            op: Op::Put(atom),
        }))
    }

    /// `name places++`, or `name places--`, by the number that it adds
    pub(crate) fn array_step(
        &self,
        tally: &mut Sizes,
        name: Span,
        places: &[Value],
        number: u64,
    ) -> Result<Pol, NameFault>
        ensures policy { ReadsSimple (after (place (words_of self.now) tally.old.arities.items name places.now) (changed (Ok (Add number)))) tally.new result }
        ensures nodes { tally.new.nodes ≡ tally.old.nodes }
    {
        let place = self.place(tally, name, places)?;
        Ok(Pol::Change(Update {
            var: place.var,
            index: place.index,
            op: Op::Add(number),
        }))
    }

    /// `name places += value`
    pub(crate) fn array_add(
        &self,
        tally: &mut Sizes,
        name: Span,
        places: &[Value],
        value: Value,
    ) -> Result<Pol, NameFault>
        ensures policy { ReadsSimple (after (place (words_of self.now) tally.old.arities.items name places.now) (changed (after (constant (words_of self.now) value) (λ n. Ok (Add n))))) tally.new result }
        ensures nodes { tally.new.nodes ≡ tally.old.nodes }
    {
        let place = self.place(tally, name, places)?;
        let number = self.constant(value)?;
        Ok(Pol::Change(Update {
            var: place.var,
            index: place.index,
            op: Op::Add(number),
        }))
    }

    /// `name places -= value`
    pub(crate) fn array_sub(
        &self,
        tally: &mut Sizes,
        name: Span,
        places: &[Value],
        value: Value,
    ) -> Result<Pol, NameFault>
        ensures policy { ReadsSimple (after (place (words_of self.now) tally.old.arities.items name places.now) (changed (subtraction (words_of self.now) value))) tally.new result }
        ensures nodes { tally.new.nodes ≡ tally.old.nodes }
    {
        let place = self.place(tally, name, places)?;
        let number = self.constant(value)?;
        Ok(Pol::Change(Update {
            var: place.var,
            index: place.index,
            op: Op::Add(number.wrapping_neg()),
        }))
    }
}
