// Tests, assignments and updates as parts.

ghost use Rattle.snap_parse.specs.Tree.{test_tree, set_tree, bare_tree, array_test_tree, array_set_tree, array_add_tree, array_sub_tree};
ghost use Rattle.snap_core.specs.declared.policy.Op.TheVariants.{Add};
ghost use Rattle.std.specs.Prelude.{Ok};
ghost use Rattle.snap_names.specs.Parts.{Reads};
ghost use Rattle.snap_names.specs.Reading.{read_single, changed};
ghost use Rattle.snap_names.specs.Senses.{after, place};

use crate::fault::NameFault;
use crate::scope::{Part, Scope, Sizes};
use snap_core::policy::Pol;
use snap_parse::{Span, Value};

impl Scope<'_> {
    /// `name = value` of a field
    pub(crate) fn test_part(
        &self,
        tally: &mut Sizes,
        name: Span,
        value: Value,
    ) -> Result<Part, NameFault>
        ensures { Reads self.now (λ e arities. read_single e (test_tree name value) arities) tally.old tally.new result }
    {
        let test = self.field_equals(name, value)?;
        Ok(tally.leaf(Pol::Filter(test)))
    }

    /// `name <- value` of a field
    pub(crate) fn set_part(
        &self,
        tally: &mut Sizes,
        name: Span,
        value: Value,
    ) -> Result<Part, NameFault>
        ensures { Reads self.now (λ e arities. read_single e (set_tree name value) arities) tally.old tally.new result }
    {
        let set = self.field_gets(name, value)?;
        Ok(tally.leaf(set))
    }

    /// `name places`
    pub(crate) fn bare_part(
        &self,
        tally: &mut Sizes,
        name: Span,
        places: &[Value],
    ) -> Result<Part, NameFault>
        ensures { Reads self.now (λ e arities. read_single e (bare_tree name places.now) arities) tally.old tally.new result }
    {
        let policy = self.bare(tally, name, places)?;
        Ok(tally.leaf(policy))
    }

    /// `name places = value`
    pub(crate) fn array_test_part(
        &self,
        tally: &mut Sizes,
        name: Span,
        places: &[Value],
        value: Value,
    ) -> Result<Part, NameFault>
        ensures { Reads self.now (λ e arities. read_single e (array_test_tree name places.now value) arities) tally.old tally.new result }
    {
        let policy = self.array_test(tally, name, places, value)?;
        Ok(tally.leaf(policy))
    }

    /// `name places <- value`
    pub(crate) fn array_set_part(
        &self,
        tally: &mut Sizes,
        name: Span,
        places: &[Value],
        value: Value,
    ) -> Result<Part, NameFault>
        ensures { Reads self.now (λ e arities. read_single e (array_set_tree name places.now value) arities) tally.old tally.new result }
    {
        let policy = self.array_set(tally, name, places, value)?;
        Ok(tally.leaf(policy))
    }

    /// `name places++`, or `name places--`, by the number that it adds
    pub(crate) fn step_part(
        &self,
        tally: &mut Sizes,
        name: Span,
        places: &[Value],
        number: u64,
    ) -> Result<Part, NameFault>
        ensures { Reads self.now (λ e arities. after (place e.words arities name places.now) (changed (Ok (Add number)))) tally.old tally.new result }
    {
        let policy = self.array_step(tally, name, places, number)?;
        Ok(tally.leaf(policy))
    }

    /// `name places += value`
    pub(crate) fn array_add_part(
        &self,
        tally: &mut Sizes,
        name: Span,
        places: &[Value],
        value: Value,
    ) -> Result<Part, NameFault>
        ensures { Reads self.now (λ e arities. read_single e (array_add_tree name places.now value) arities) tally.old tally.new result }
    {
        let policy = self.array_add(tally, name, places, value)?;
        Ok(tally.leaf(policy))
    }

    /// `name places -= value`
    pub(crate) fn array_sub_part(
        &self,
        tally: &mut Sizes,
        name: Span,
        places: &[Value],
        value: Value,
    ) -> Result<Part, NameFault>
        ensures { Reads self.now (λ e arities. read_single e (array_sub_tree name places.now value) arities) tally.old tally.new result }
    {
        let policy = self.array_sub(tally, name, places, value)?;
        Ok(tally.leaf(policy))
    }
}
