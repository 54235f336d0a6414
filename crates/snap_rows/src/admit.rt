//! Which visits a copy may make in a step.

ghost use Rattle.std.specs.Prelude.{◌≡◌, ℕ, Bool, true};

/// Says which visits a copy may make in a step.
pub trait Admit {
    ghost admits: { Self → ℕ → Bool };

    /// Whether it may make its visit of a rank. Takes no memory.
    fn admits(&self, rank: u16) -> bool
        ensures { result ≡ admits self.now rank };
}

/// Admits every visit.
#[derive(Clone, Copy)]
pub struct Every;

impl Admit for Every {
    ghost admits = { λ _ rank. true };

    #[inline(always)]
    fn admits(&self, _rank: u16) -> bool {
        true
    }
}
