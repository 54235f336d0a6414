//! Numbers from 1 to 64 in words.

ghost use Rattle.std.specs.Prelude.{◌≡◌, ◌≤◌, option_map};
ghost use Rattle.snap_words.specs.Counts.{count_of};

use itoa::Buffer;

/// A number from 1 to 64: of switches, or of workers.
#[derive(Clone, Copy)]
pub struct Count {
    /// The number.
    pub value: u16,
    ghost some: { 1 ≤ value },
    ghost few: { value ≤ 64 },
}

/// The number from 1 to 64 that a text is in decimal, without a sign or a leading zero.
pub(crate) fn count_of(text: &str) -> Option<Count>
    ensures { option_map (λ c. c.value) result ≡ count_of text.now }
{
    let Ok(value) = text.parse::<u16>() else {
        return None;
    };
    let mut buffer = Buffer::new();
    let printed = buffer.format(value);
    if value == 0 || value > 64 || printed != text {
        return None;
    }
    Some(Count { value })
}
