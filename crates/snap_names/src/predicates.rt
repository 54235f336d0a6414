// Which trees are predicates, and the faults at the first tokens of those that aren't.

ghost use Rattle.std.specs.Prelude.{◌≡◌, List};
ghost use Rattle.snap_parse.specs.Tree.{single_tree, both_tree, either_tree, choice_tree, sequence_tree, policy_tree};
ghost use Rattle.snap_names.specs.Core.{CorePolicy};
ghost use Rattle.snap_names.specs.Parts.{words_of, env_in, AreBodies};
ghost use Rattle.snap_names.specs.Reading.{named, is_filter_or_fault, is_predicate, both_is_predicate, either_is_predicate, choice_is_predicate, sequence_is_predicate, policy_is_predicate, name_fault, single_fault, both_fault, either_fault};

use crate::fault::NameFault;
use crate::scope::{Scope, Sense};
use snap_parse::{Both, Choice, Either, Policy, Sequence, Single, Span};

impl Scope<'_> {
    // Whether a lone name is a predicate: a `let` whose body is one. A name that is no `let` counts as one.
    fn name_is_predicate(&self, name: Span) -> bool
        ensures { (lets : List CorePolicy) → AreBodies self.now.lets.items lets → result ≡ is_filter_or_fault (named (env_in self.now lets) name) }
    {
        match self.sense(name) {
            Ok(Sense::Policy(number)) => match self.lets.get(number) {
                Some(body) => body.part.is_test,
                None => true,
            },
            _ => true,
        }
    }

    /// Whether a tree is a predicate.
    #[cycle(predicates)]
    #[tactic(auto, unfolding(snap_parse::specs::Tree::single_tree, snap_parse::specs::Tree::policy_tree))]
    pub(crate) fn is_predicate(&self, tree: &Single) -> bool
        ensures { (lets : List CorePolicy) → AreBodies self.now.lets.items lets → result ≡ is_predicate (env_in self.now lets) (single_tree tree.now) }
    {
        match tree {
            Single::Not { .. }
            | Single::Id { .. }
            | Single::Drop { .. }
            | Single::Test { .. }
            | Single::Bare { .. }
            | Single::ArrayTest { .. } => true,
            Single::Group { body, .. } => self.policy_is_predicate(body),
            Single::Name(name) => self.name_is_predicate(*name),
            Single::Atomic { .. }
            | Single::Set { .. }
            | Single::ArraySet { .. }
            | Single::Up { .. }
            | Single::Down { .. }
            | Single::ArrayAdd { .. }
            | Single::ArraySub { .. } => false,
        }
    }

    #[cycle(predicates)]
    pub(crate) fn both_is_predicate(&self, tree: &Both) -> bool
        ensures { (lets : List CorePolicy) → AreBodies self.now.lets.items lets → result ≡ both_is_predicate (env_in self.now lets) (both_tree tree.now) }
    {
        match tree.parts.len() {
            0 => false,
            1 => self.is_predicate(&tree.parts[0]),
            _ => true,
        }
    }

    #[cycle(predicates)]
    pub(crate) fn either_is_predicate(&self, tree: &Either) -> bool
        ensures { (lets : List CorePolicy) → AreBodies self.now.lets.items lets → result ≡ either_is_predicate (env_in self.now lets) (either_tree tree.now) }
    {
        match tree.parts.len() {
            0 => false,
            1 => self.both_is_predicate(&tree.parts[0]),
            _ => true,
        }
    }

    #[cycle(predicates)]
    #[tactic(auto, unfolding(snap_parse::specs::Tree::choice_tree, snap_parse::specs::Tree::either_tree))]
    fn choice_is_predicate(&self, tree: &Choice) -> bool
        ensures { (lets : List CorePolicy) → AreBodies self.now.lets.items lets → result ≡ choice_is_predicate (env_in self.now lets) (choice_tree tree.now) }
    {
        match tree {
            Choice::If { .. } => false,
            Choice::Plain(either) => self.either_is_predicate(either),
        }
    }

    #[cycle(predicates)]
    fn sequence_is_predicate(&self, tree: &Sequence) -> bool
        ensures { (lets : List CorePolicy) → AreBodies self.now.lets.items lets → result ≡ sequence_is_predicate (env_in self.now lets) (sequence_tree tree.now) }
    {
        if tree.parts.len() == 1 {
            self.choice_is_predicate(&tree.parts[0])
        } else {
            false
        }
    }

    #[cycle(predicates)]
    fn policy_is_predicate(&self, tree: &Policy) -> bool
        ensures { (lets : List CorePolicy) → AreBodies self.now.lets.items lets → result ≡ policy_is_predicate (env_in self.now lets) (policy_tree tree.now) }
    {
        if tree.parts.len() == 1 {
            self.sequence_is_predicate(&tree.parts[0])
        } else {
            false
        }
    }

    // The fault at a name where no predicate begins.
    fn name_fault(&self, name: Span) -> NameFault
        ensures { result ≡ name_fault (words_of self.now) name }
    {
        match self.sense(name) {
            Ok(_) => NameFault::Kind { at: name.from },
            Err(fault) => fault,
        }
    }

    /// The fault at the first token of a tree that is no predicate.
    #[tactic(auto, unfolding(snap_parse::specs::Tree::single_tree))]
    pub(crate) fn single_fault(&self, tree: &Single) -> NameFault
        ensures { result ≡ single_fault (words_of self.now) (single_tree tree.now) }
    {
        match tree {
            Single::Set { name, .. }
            | Single::ArraySet { name, .. }
            | Single::Up { name, .. }
            | Single::Down { name, .. }
            | Single::ArrayAdd { name, .. }
            | Single::ArraySub { name, .. } => self.name_fault(*name),
            Single::Not { .. }
            | Single::Id { .. }
            | Single::Drop { .. }
            | Single::Group { .. }
            | Single::Atomic { .. }
            | Single::Name(_)
            | Single::Test { .. }
            | Single::Bare { .. }
            | Single::ArrayTest { .. } => NameFault::Kind { at: tree.at() },
        }
    }

    /// The same for operands joined by `&`.
    pub(crate) fn both_fault(&self, tree: &Both) -> NameFault
        ensures { result ≡ both_fault (words_of self.now) (both_tree tree.now) }
    {
        if tree.parts.len() == 1 {
            self.single_fault(&tree.parts[0])
        } else {
            NameFault::Kind { at: tree.at }
        }
    }

    /// The same for operands joined by `|`.
    pub(crate) fn either_fault(&self, tree: &Either) -> NameFault
        ensures { result ≡ either_fault (words_of self.now) (either_tree tree.now) }
    {
        if tree.parts.len() == 1 {
            self.both_fault(&tree.parts[0])
        } else {
            NameFault::Kind { at: tree.at }
        }
    }
}
