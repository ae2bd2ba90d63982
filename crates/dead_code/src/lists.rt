//! Lists of numbers by numbers.
ghost use Rattle.std.specs.Prelude.{◌≡◌, ◌+◌, ◌<◌, ◌==◌, ◌++◌, ◌∷◌, [], ℕ, if◌then◌else◌, length, OnOk};
ghost use Rattle.dead_code.specs.Lists.{list_in, total};

use std::alloc::{AllocError, Global};
use std::mem::replace;

/// A list for each number up to the greatest that has one, so that lists of near numbers lie near.
#[derive(Drop)]
pub(crate) struct Lists {
    rows: Vec<Vec<u32>>,
}

impl Lists {
    /// An empty list for each number.
    pub(crate) fn new(alloc: Global) -> Self
        ensures { (n : ℕ) → list_in result n ≡ [] }
    {
        Lists {
            rows: Vec::new(alloc),
        }
    }

    /// Makes lists up to this place.
    fn reach(&mut self, alloc: Global, place: usize) -> Result<(), AllocError>
        requires { place < 4294967296 }
        ensures kept { OnOk result ((n : ℕ) → list_in self.new n ≡ list_in self.old n) }
        ensures there { OnOk result (place < length self.new.rows.items) }
    {
        let count = self.rows.len();
        if place < count {
            return Ok(());
        }
        for _ in count..place + 1 {
            self.rows.push(Vec::new(alloc))?;
        }
        Ok(())
    }

    /// One more item in the list of a number.
    pub(crate) fn push(&mut self, alloc: Global, number: u32, item: u32) -> Result<(), AllocError>
        ensures { OnOk result ((n : ℕ) → list_in self.new n ≡ list_in self.old n ++ (if number == n then item ∷ [] else [])) }
    {
        let place = number as usize;
        self.reach(alloc, place)?;
        self.rows[place].push(item)?;
        Ok(())
    }

    /// The list of a number, which is empty then.
    pub(crate) fn take(&mut self, alloc: Global, number: u32) -> Vec<u32>
        ensures list { result.items ≡ list_in self.old number }
        ensures left { (n : ℕ) → list_in self.new n ≡ (if number == n then [] else list_in self.old n) }
        ensures fewer { total self.new + length result.items ≡ total self.old }
    {
        let place = number as usize;
        if place < self.rows.len() {
            return replace(&mut self.rows[place], Vec::new(alloc));
        }
        Vec::new(alloc)
    }
}
