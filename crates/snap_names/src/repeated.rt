// Repeated parts.

ghost use Rattle.std.specs.Prelude.{Option, Result};
ghost use Rattle.snap_names.specs.Core.{CoreTest, CorePolicy, filter};
ghost use Rattle.snap_names.specs.Parts.{HasRead, HaveRead, itself};
ghost use Rattle.snap_names.specs.Reading.{whole, whole_test};
ghost use Rattle.snap_names.specs.Senses.{Arities, after};
ghost use Rattle.snap_names.specs.declared.fault.NameFault.{NameFault};
ghost use Rattle.snap_names.specs.declared.scope.Sizes.{Sizes};

use crate::scope::{Part, Sizes};
use snap_core::policy::{Pol, Pred};

impl Sizes {
    /// A repeated part: its operands, or `id` where there are none.
    pub(crate) fn whole(&mut self, parts: Option<Part>) -> Part
        ensures policies { (r : Result (Option CorePolicy × Arities) NameFault) (old : Sizes) → HaveRead itself r old self.old parts → HasRead itself (after r whole) old self.new result }
        ensures tests { (r : Result (Option CoreTest × Arities) NameFault) (old : Sizes) → HaveRead filter r old self.old parts → HasRead itself (after r whole_test) old self.new result }
    {
        match parts {
            Some(part) => part,
            None => self.leaf(Pol::Filter(Pred::Id)),
        }
    }
}
