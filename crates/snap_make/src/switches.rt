//! Sets of switches.

ghost use Rattle.std.specs.Prelude.{◌≡◌, ◌<◌, ◌||◌, ◌==◌, ◌^◌, ℕ, false};
ghost use Rattle.snap_core.specs.Arrays.{has};
ghost use Rattle.snap_make.specs.Marks.{has_switch};

/// A set of switches, of which there are at most 256: a bit for each.
#[derive(Clone, Copy)]
pub struct Switches {
    words: [u64; 4],
}

// Whether a word has a bit.
fn has_bit(word: u64, at: u16) -> bool
    requires { at < 64 }
    ensures { result ≡ has word at }
{
    word >> at & 1 == 1
}

// The word with one bit.
fn bit(at: u16) -> u64
    requires { at < 64 }
    ensures { result ≡ 2 ^ at }
{
    1 << at
}

impl Switches {
    /// No switch.
    pub fn none() -> Switches
        ensures { (v : ℕ) → has_switch result v ≡ false }
    {
        Switches { words: [0; 4] }
    }

    /// Whether a switch is in the set.
    pub fn has(&self, at: u16) -> bool
        requires { at < 256 }
        ensures { result ≡ has_switch self.now at }
    {
        has_bit(self.words[at as usize / 64], at % 64)
    }

    /// The set with one more switch.
    pub fn with(&self, at: u16) -> Switches
        requires { at < 256 }
        ensures { (v : ℕ) → has_switch result v ≡ (v == at || has_switch self.now v) }
    {
        let mut words = self.words;
        let place = at as usize / 64;
        words[place] = bit(at % 64) | words[place];
        Switches { words }
    }

    /// The switches that are in one of two sets.
    pub fn with_all(&self, other: &Switches) -> Switches
        ensures { (v : ℕ) → has_switch result v ≡ (has_switch self.now v || has_switch other.now v) }
    {
        Switches {
            words: [
                self.words[0] | other.words[0],
                self.words[1] | other.words[1],
                self.words[2] | other.words[2],
                self.words[3] | other.words[3],
            ],
        }
    }
}
