//! Laws of names and literals, each the contract of a call that does nothing.

ghost use Rattle.snap_names.specs.Laws.{AddressesHaveNumbers};

/// A text is an address of the tokens exactly where it spells the number of one: an address is never too wide.
pub fn addresses_have_numbers()
    ensures { AddressesHaveNumbers }
{}
