//! How often numbers stand in a list.
ghost use Rattle.std.specs.Prelude.{◌≡◌, ℕ, ◌+◌, nat_eq, if◌then◌else◌, IfOk, OnOk};
ghost use Rattle.ir_meaning.specs.Counted.{times};
ghost use Rattle.branch_simplify.specs.Tables.{count_of};

use std::alloc::{AllocError, Global};
use std::collections::HashMap;

/// A count for each number; of all but finitely many it is 0.
#[derive(Drop)]
pub(crate) struct Counts {
    counts: HashMap<u32, usize>,
}

impl Counts {
    /// The count of a number.
    pub(crate) fn at(&self, number: u32) -> usize
        ensures { result ≡ count_of self.now number }
    {
        match self.counts.get(&number) {
            Some(count) => *count,
            None => 0,
        }
    }

    /// Sets the count of a number.
    pub(crate) fn set(&mut self, number: u32, count: usize) -> Result<(), AllocError>
        ensures { OnOk result ((n : ℕ) → count_of self.new n ≡ (if nat_eq number n then count else count_of self.old n)) }
    {
        self.counts.insert(number, count)?;
        Ok(())
    }

    /// How often each number stands in a list.
    pub(crate) fn of(alloc: Global, numbers: &[u32]) -> Result<Self, AllocError>
        ensures { IfOk result (λ c. (n : ℕ) → count_of c n ≡ times n numbers.now) }
    {
        let mut counts = Counts {
            counts: HashMap::new(alloc),
        };
        for number in numbers {
            let count = counts.at(*number);
            counts.set(*number, count + 1)?;
        }
        Ok(counts)
    }
}
