//! Cases by number.

ghost use Rattle.std.specs.Prelude.{◌≡◌, ℕ, IfOk, nat_lt, true, false};
ghost use Rattle.std.specs.List.Sorted.{IsPartitionPoint};
ghost use Rattle.snap_core.specs.Cases.{case_at};

use crate::NoMemory;
use std::marker::Model;

/// Numbers that never fall, each with what it stands for. Of equal ones the first counts.
#[derive(Drop)]
pub struct Cases {
    cases: Vec<(u64, u64)>,
}

impl Model for Cases {
    ghost use Rattle.std.specs.Prelude.{List, ℕ};
    ghost use Rattle.std.specs.List.Sorted.{IsNonDecreasingBy};

    ghost Value = { List (ℕ × ℕ) };

    ghost view = { λ a. a.cases.items };

    ghost invariant = { λ a. IsNonDecreasingBy (λ c. c.0) a.cases.items };
}

impl Cases {
    /// These cases by rising numbers, those of one number in their order. Refuses for memory alone.
    pub fn of(mut cases: Vec<(u64, u64)>) -> Result<Cases, NoMemory>
        ensures { IfOk result (λ made. (n : ℕ) → case_at made n ≡ case_at cases.items n) }
    {
        cases.sort_by_key(|case| case.0)?;
        Ok(Cases { cases })
    }

    /// What the first case of a number says. Takes no memory.
    #[inline(always)]
    pub fn get(&self, number: u64) -> Option<u64>
        ensures { result ≡ case_at self.now number }
    {
        match self.cases.get(self.before(number)) {
            Some((found, said)) if *found == number => Some(*said),
            _ => None,
        }
    }

    // How many cases are of lesser numbers.
    #[inline(always)]
    fn before(&self, number: u64) -> usize
        ensures { IsPartitionPoint (λ c. nat_lt c.0 number ≡ true) (λ c. nat_lt c.0 number ≡ false) self.now result }
    {
        self.cases.partition_point(|case| case.0 < number)
    }
}
