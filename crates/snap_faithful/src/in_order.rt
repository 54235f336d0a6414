//! Laws of faithful tables of version 2, rank by rank: what runs with overlap stand on.

ghost use Rattle.snap_faithful.specs.Chains.{ChainsAreAtHome, ChainsAreOne, FaithfulChains, FaithfulKeepsStores, FieldsGoAlike, VisitsAreOne};
ghost use Rattle.snap_faithful.specs.InOrder.{FaithfulTurnsKeep};

/// A visit is determined by its number and the arrays, and so is a chain of visits; field rows go by the packet alone; the next visit of a
/// chain is at home.
pub fn chains_are_one()
    ensures visits { VisitsAreOne }
    ensures chains { ChainsAreOne }
    ensures fields { FieldsGoAlike }
    ensures home { ChainsAreAtHome }
{}

/// From faithful tables of version 2 alone: the visits of a packet, each by the arrays of one store at its own rank, end at a leaf and
/// leave each rank as evaluation does, and the leaf's copies are those of evaluation's packets.
pub fn faithful_chains()
    ensures { FaithfulChains }
{}

/// From faithful tables alone: evaluation is defined on each store and packet of the program, and leaves a store of it.
pub fn faithful_keeps_stores()
    ensures { FaithfulKeepsStores }
{}

/// From faithful tables of version 2 alone: a step in order leaves each array as after the packets that its rank has handled.
pub fn faithful_turns_keep()
    ensures { FaithfulTurnsKeep }
{}
