//! What is written to a cell of a store.

ghost use Rattle.std.specs.Prelude.{◌≡◌};
ghost use Rattle.snap_core.specs.Cells.{written};

/// What is written to a cell.
#[derive(Clone, Copy)]
pub(crate) enum Write {
    Number(u64),

    /// So much more than the cell holds, modulo 2^64.
    More(u64),
}

impl Write {
    /// The number that a cell holds then, which held `before`.
    pub(crate) fn number(self, before: u64) -> u64
        ensures { result ≡ written self before }
    {
        match self {
            Write::Number(number) => number,
            Write::More(plus) => before.wrapping_add(plus),
        }
    }
}
