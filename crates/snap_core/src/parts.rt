//! Texts in parts between separators.

ghost use Rattle.std.specs.Prelude.{◌≡◌, MatchOption, IfSome, ◌<◌, length, [], ◌∷◌};
ghost use Rattle.snap_core.specs.Figures.{parts_at};

/// The text before the first byte that separates, and the text behind it.
pub fn split_at_first(text: &[u8], separator: u8) -> Option<(&[u8], &[u8])>
    ensures parts { MatchOption result (parts_at separator text.now ≡ text.now ∷ [])
        (λ pair. parts_at separator text.now ≡ pair.0.now ∷ parts_at separator pair.1.now) }
    ensures shorter { IfSome result (λ pair. length pair.1.now < length text.now) }
{
    for (at, byte) in text.iter().enumerate() {
        if *byte == separator {
            return Some((&text[..at], &text[at + 1..]));
        }
    }
    None
}
