//! A walk on its way: the work list.
ghost use Rattle.std.specs.Prelude.{◌≡◌, ◌<◌, ◌∷◌, [], false, length, replicate, All, IfOk, OnOk};
ghost use Rattle.combined_index.specs.Walking.{Grown};

use lto_sets::Bits;
use std::alloc::{AllocError, Global};

/// The numbers that a walk has reached, and those of them whose rows it has still to follow.
#[derive(Drop)]
pub struct Walk {
    pub reached: Bits,
    pub waiting: Vec<u32>,
}

impl Walk {
    /// A walk over the numbers below a size, which has reached none.
    pub fn new(alloc: Global, size: u32) -> Result<Walk, AllocError>
        ensures { IfOk result (λ w. (w.reached ≡ replicate size false) × (w.waiting.items ≡ [])) }
    {
        Ok(Walk {
            reached: Bits::new(alloc, size)?,
            waiting: Vec::new(alloc),
        })
    }

    /// Reaches a number, which waits where it wasn't reached before.
    pub fn reach(&mut self, number: u32) -> Result<(), AllocError>
        requires { number < length self.old.reached }
        ensures { OnOk result (Grown self.old.reached self.old.waiting.items (number ∷ []) self.new.reached self.new.waiting.items) }
    {
        if !self.reached.has(number) {
            self.waiting.push(number)?;
            self.reached.with(number);
        }
        Ok(())
    }

    /// Reaches each of the numbers.
    pub fn reach_all(&mut self, numbers: &[u32]) -> Result<(), AllocError>
        requires { All (λ n. n < length self.old.reached) numbers.now }
        ensures { OnOk result (Grown self.old.reached self.old.waiting.items numbers.now self.new.reached self.new.waiting.items) }
    {
        for number in numbers {
            self.reach(*number)?;
        }
        Ok(())
    }
}
