// Policies: a function for each line of the grammar.

ghost use Rattle.snap_parse.specs.Tree.{single_tree, both_tree, either_tree, choice_tree, sequence_tree, policy_tree};
ghost use Rattle.snap_names.specs.Parts.{Reads, ReadsTest};
ghost use Rattle.snap_names.specs.Reading.{read_policy, read_sequence, read_choice, read_either, read_both, read_single, single_fault, both_fault, either_fault, is_predicate, both_is_predicate, either_is_predicate, either_as_test, both_as_test, single_as_test};

use crate::fault::NameFault;
use crate::parts::{self, PolicyJoin, TestJoin};
use crate::scope::{Part, Scope, Sizes};
use snap_core::policy::{Pol, Pred};
use snap_parse::{Both, Choice, Either, Policy, Sequence, Single};

impl Scope<'_> {
    /// The core policy of sequences joined by `+`.
    #[cycle(reader)]
    pub(crate) fn policy(&self, tally: &mut Sizes, tree: &Policy) -> Result<Part, NameFault>
        ensures { Reads self.now (λ e arities. read_policy e (policy_tree tree.now) arities) tally.old tally.new result }
    {
        let mut parts: Option<Part> = None;
        for part in &tree.parts {
            let next = self.sequence(tally, part)?;
            let joined = parts::join_policies(self.alloc, tally, PolicyJoin::Beside, parts, next)?;
            parts = Some(joined);
        }
        Ok(tally.whole(parts))
    }

    #[cycle(reader)]
    fn sequence(&self, tally: &mut Sizes, tree: &Sequence) -> Result<Part, NameFault>
        ensures { Reads self.now (λ e arities. read_sequence e (sequence_tree tree.now) arities) tally.old tally.new result }
    {
        let mut parts: Option<Part> = None;
        for part in &tree.parts {
            let next = self.choice(tally, part)?;
            let joined = parts::join_policies(self.alloc, tally, PolicyJoin::Behind, parts, next)?;
            parts = Some(joined);
        }
        Ok(tally.whole(parts))
    }

    #[cycle(reader)]
    fn choice(&self, tally: &mut Sizes, tree: &Choice) -> Result<Part, NameFault>
        ensures { Reads self.now (λ e arities. read_choice e (choice_tree tree.now) arities) tally.old tally.new result }
    {
        match tree {
            Choice::If { test, yes, no, .. } => {
                let test = self.either_operand(tally, test)?;
                let yes = self.policy(tally, yes)?;
                let no = self.choice(tally, no)?;
                let joined = parts::choice(self.alloc, tally, test, yes, no)?;
                Ok(joined)
            }
            Choice::Plain(either) => self.either(tally, either),
        }
    }

    #[cycle(reader)]
    fn either_operand(&self, tally: &mut Sizes, tree: &Either) -> Result<Part, NameFault>
        ensures { ReadsTest self.now (λ e. either_as_test e (either_tree tree.now)) tally.old tally.new result }
    {
        let fault = self.either_fault(tree);
        let is_predicate = self.either_is_predicate(tree);
        if !is_predicate {
            return Err(fault);
        }
        let part = self.either(tally, tree)?;
        if part.is_test { Ok(part) } else { Err(fault) }
    }

    #[cycle(reader)]
    fn either(&self, tally: &mut Sizes, tree: &Either) -> Result<Part, NameFault>
        ensures { Reads self.now (λ e arities. read_either e (either_tree tree.now) arities) tally.old tally.new result }
    {
        if tree.parts.len() == 1 {
            return self.both(tally, &tree.parts[0]);
        }
        let mut parts: Option<Part> = None;
        for part in &tree.parts {
            let next = self.both_operand(tally, part)?;
            let joined = parts::join_tests(self.alloc, tally, TestJoin::Either, parts, next)?;
            parts = Some(joined);
        }
        Ok(tally.whole(parts))
    }

    #[cycle(reader)]
    fn both_operand(&self, tally: &mut Sizes, tree: &Both) -> Result<Part, NameFault>
        ensures { ReadsTest self.now (λ e. both_as_test e (both_tree tree.now)) tally.old tally.new result }
    {
        let fault = self.both_fault(tree);
        let is_predicate = self.both_is_predicate(tree);
        if !is_predicate {
            return Err(fault);
        }
        let part = self.both(tally, tree)?;
        if part.is_test { Ok(part) } else { Err(fault) }
    }

    #[cycle(reader)]
    fn both(&self, tally: &mut Sizes, tree: &Both) -> Result<Part, NameFault>
        ensures { Reads self.now (λ e arities. read_both e (both_tree tree.now) arities) tally.old tally.new result }
    {
        if tree.parts.len() == 1 {
            return self.single(tally, &tree.parts[0]);
        }
        let mut parts: Option<Part> = None;
        for part in &tree.parts {
            let next = self.single_operand(tally, part)?;
            let joined = parts::join_tests(self.alloc, tally, TestJoin::Both, parts, next)?;
            parts = Some(joined);
        }
        Ok(tally.whole(parts))
    }

    #[cycle(reader)]
    fn single_operand(&self, tally: &mut Sizes, tree: &Single) -> Result<Part, NameFault>
        ensures { ReadsTest self.now (λ e. single_as_test e (single_tree tree.now)) tally.old tally.new result }
    {
        let fault = self.single_fault(tree);
        let is_predicate = self.is_predicate(tree);
        if !is_predicate {
            return Err(fault);
        }
        let part = self.single(tally, tree)?;
        if part.is_test { Ok(part) } else { Err(fault) }
    }

    #[cycle(reader)]
    fn single(&self, tally: &mut Sizes, tree: &Single) -> Result<Part, NameFault>
        ensures { Reads self.now (λ e arities. read_single e (single_tree tree.now) arities) tally.old tally.new result }
    {
        match tree {
            Single::Not { part, .. } => {
                let part = self.single_operand(tally, part)?;
                let negated = parts::not(self.alloc, tally, part)?;
                Ok(negated)
            }
            Single::Group { body, .. } => self.policy(tally, body),
            Single::Atomic { body, .. } => {
                let body = self.policy(tally, body)?;
                let whole = parts::atomic(self.alloc, tally, body)?;
                Ok(whole)
            }
            Single::Name(name) => self.named(tally, *name),
            Single::Id { .. } => Ok(tally.leaf(Pol::Filter(Pred::Id))),
            Single::Drop { .. } => Ok(tally.leaf(Pol::Filter(Pred::Drop))),
            Single::Test { name, value } => self.test_part(tally, *name, *value),
            Single::Set { name, value } => self.set_part(tally, *name, *value),
            Single::Bare { name, places } => self.bare_part(tally, *name, places),
            Single::ArrayTest {
                name,
                places,
                value,
            } => self.array_test_part(tally, *name, places, *value),
            Single::ArraySet {
                name,
                places,
                value,
            } => self.array_set_part(tally, *name, places, *value),
            Single::Up { name, places } => self.step_part(tally, *name, places, 1),
            Single::Down { name, places } => self.step_part(tally, *name, places, u64::MAX),
            Single::ArrayAdd {
                name,
                places,
                value,
            } => self.array_add_part(tally, *name, places, *value),
            Single::ArraySub {
                name,
                places,
                value,
            } => self.array_sub_part(tally, *name, places, *value),
        }
    }
}
