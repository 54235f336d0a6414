//! Sets of variables and components, a bit each.

ghost use Rattle.std.specs.Prelude.{◌≡◌};
ghost use Rattle.snap_core.specs.Arrays.{has};
ghost use Rattle.snap_context.specs.Known.{IsAmong};

/// Whether a set has a number. No set has one from 64 on.
pub fn is_in(set: u64, number: u16) -> bool
    ensures { result ≡ has set number }
{
    number < 64 && (set >> number) & 1 == 1
}

/// The set of one number, which is empty from 64 on.
pub fn bit(number: u16) -> u64
    ensures { IsAmong result number }
{
    if number < 64 { 1 << number } else { 0 }
}
