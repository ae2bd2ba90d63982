//! Blocks that have to be looked at again, each once, the one that waits longest first.
ghost use Rattle.std.specs.Prelude.{◌≡◌, ℕ, ◌+◌, ◌<◌, ◌≤◌, [], ◌∷◌, true, length, MatchOption, IfOk, OnOk};
ghost use Rattle.ir_tree.specs.Flow.{holds};
ghost use Rattle.ir_flow.specs.Waiting.{AreHeld, AreBelow};

use lto_sets::Bits;
use std::alloc::{AllocError, Global};
use std::collections::VecDeque;

/// A queue of blocks, and the set of those that are in it.
#[derive(Drop)]
pub struct WorkList {
    queue: VecDeque<u32>,
    waiting: Bits,
    ghost held: { AreHeld waiting queue.items },
    ghost below: { AreBelow (length waiting) queue.items },
}

impl WorkList {
    /// All blocks below a count, in order.
    pub fn all(alloc: Global, count: u32) -> Result<WorkList, AllocError>
        ensures { IfOk result (λ w. (length w.waiting ≡ count) × ((b : ℕ) → b < count → holds w.queue.items b ≡ true)) }
    {
        let mut queue = VecDeque::new(alloc);
        for block in 0..count {
            queue.push_back(block)?;
        }
        Ok(WorkList {
            queue,
            waiting: Bits::full(alloc, count)?,
        })
    }

    /// Takes out the block that has waited longest.
    pub fn take(&mut self) -> Option<u32>
        ensures count { length self.new.waiting ≡ length self.old.waiting }
        ensures first { MatchOption result (self.old.queue.items ≡ []) (λ b. (b < length self.old.waiting) × (self.old.queue.items ≡ b ∷ self.new.queue.items)) }
    {
        let block = self.queue.pop_front()?;
        self.waiting.without(block);
        Some(block)
    }

    /// Puts a block at the end where it doesn't wait already.
    pub fn put(&mut self, block: u32) -> Result<(), AllocError>
        requires { block < length self.old.waiting }
        ensures count { length self.new.waiting ≡ length self.old.waiting }
        ensures grows { length self.new.queue.items ≤ length self.old.queue.items + 1 }
        ensures stay { (b : ℕ) → holds self.old.queue.items b ≡ true → holds self.new.queue.items b ≡ true }
        ensures there { OnOk result (holds self.new.queue.items block ≡ true) }
    {
        if !self.waiting.has(block) {
            self.queue.push_back(block)?;
            self.waiting.with(block);
        }
        Ok(())
    }
}
