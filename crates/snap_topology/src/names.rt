//! Names and numbers in documents.

ghost use Rattle.std.specs.Prelude.{◌≡◌};
ghost use Rattle.snap_topology.specs.Spells.{port_number, is_switch};

use itoa::Buffer;
use snap_core::lists::Name;

/// The number from 1 to 4294967295 that a text is in decimal, without a leading zero.
pub(crate) fn port_of(text: &str) -> Option<u32>
    ensures { result ≡ port_number text.now }
{
    let Ok(port) = text.parse::<u32>() else {
        return None;
    };
    let mut buffer = Buffer::new();
    let printed = buffer.format(port);
    if port == 0 || printed != text {
        return None;
    }
    Some(port)
}

/// Whether a name is one of some names. Goes through all of them: for few names, or few look-ups.
pub fn is_among(names: &[Name], name: &[u8]) -> bool
    ensures { result ≡ is_switch names.now name.now }
{
    for known in names {
        if name == known.items() {
            return true;
        }
    }
    false
}
