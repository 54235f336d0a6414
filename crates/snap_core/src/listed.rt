//! Listed places: how they are made, compared and copied.

ghost use Rattle.std.specs.Prelude.{◌≡◌, IfOk, slice_index};
ghost use Rattle.std.specs.Cmp.Lexicographic.{slice_cmp};
ghost use Rattle.std.specs.Ordering.{nat_cmp};
ghost use Rattle.snap_core.specs.Listing.{entry_of, listed_cmp};

use crate::NoMemory;
use crate::lists::Index;
use crate::place::{Entry, Listed, Place};
use std::alloc::Global;
use std::cmp::Ordering;

// The number at a place, or 0.
fn number_or_zero(index: &[u64], place: usize) -> u64
    ensures { result ≡ slice_index index.now place }
{
    match index.get(place) {
        Some(number) => *number,
        None => 0,
    }
}

impl<'a> Listed<'a> {
    pub(crate) fn new(var: u16, index: &'a [u64], value: u64) -> Listed<'a>
        ensures { entry_of result ≡ record { place = record { var = var; index = index.now }; value = value } }
    {
        Listed {
            var,
            index,
            value,
            first: number_or_zero(index, 0),
            second: number_or_zero(index, 1),
            third: number_or_zero(index, 2),
        }
    }
}

impl Listed<'_> {
    /// The entry with an index of its own.
    pub fn entry(&self, alloc: Global) -> Result<Entry, NoMemory>
        ensures { IfOk result (λ entry. entry ≡ entry_of self.now) }
    {
        let index = Vec::from_slice(alloc, self.index)?;
        Ok(Entry {
            place: Place {
                var: self.var,
                index: Index::new(index),
            },
            value: self.value,
        })
    }

    // By variable, and then by index.
    pub(crate) fn compare(&self, other: &Listed<'_>) -> Ordering
        ensures { result ≡ listed_cmp self.now other.now }
    {
        match self.var.cmp(&other.var) {
            Ordering::Equal => self.compare_index(other),
            order => order,
        }
    }

    fn compare_index(&self, other: &Listed<'_>) -> Ordering
        ensures { result ≡ slice_cmp nat_cmp self.now.index.now other.now.index.now }
    {
        match self.first.cmp(&other.first) {
            Ordering::Equal => self.compare_behind(other),
            order => order,
        }
    }

    // The same where the first numbers agree.
    fn compare_behind(&self, other: &Listed<'_>) -> Ordering
        requires { self.now.first ≡ other.now.first }
        ensures { result ≡ slice_cmp nat_cmp self.now.index.now other.now.index.now }
    {
        match self.second.cmp(&other.second) {
            Ordering::Equal => self.compare_last(other),
            order => order,
        }
    }

    // The same where the first two numbers agree.
    fn compare_last(&self, other: &Listed<'_>) -> Ordering
        requires first { self.now.first ≡ other.now.first }
        requires second { self.now.second ≡ other.now.second }
        ensures { result ≡ slice_cmp nat_cmp self.now.index.now other.now.index.now }
    {
        match self.third.cmp(&other.third) {
            Ordering::Equal => self.index.cmp(other.index),
            order => order,
        }
    }
}
