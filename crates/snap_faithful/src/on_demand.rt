//! Laws of tables of version 1.

ghost use Rattle.snap_faithful.specs.StagedFacts.{StagedFactsMakeFaithful};
ghost use Rattle.snap_faithful.specs.Closed.{ClosedIsWhole};
ghost use Rattle.snap_faithful.specs.Derived.{DerivedIsOnDemand};
ghost use Rattle.snap_faithful.specs.OnDemand.{OnDemandIsValid};
ghost use Rattle.snap_faithful.specs.Written.{WrittenOnDemandIsFaithful};

/// **Facts that make tables of version 1 faithful.**
pub fn staged_facts_make_faithful()
    ensures { StagedFactsMakeFaithful }
{}

/// **Tables whose rows are those on demand are valid, and faithful where they are written of a program's diagram.**
pub fn written_on_demand_is_faithful()
    ensures whole { ClosedIsWhole }
    ensures derived { DerivedIsOnDemand }
    ensures valid { OnDemandIsValid }
    ensures faithful { WrittenOnDemandIsFaithful }
{}
