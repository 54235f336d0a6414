//! Laws of frames. With them the contracts of `encode` and `decode` say that `decode` gives back what was encoded.

ghost use Rattle.snap_net.specs.FrameLaws.{SpellsOne, HasNoFault};

/// A frame spells one head and one packet.
pub fn spells_one()
    ensures { SpellsOne }
{}

/// A frame has no fault.
pub fn has_no_fault()
    ensures { HasNoFault }
{}
