//! Where blocks stand in their function.
ghost use Rattle.std.specs.Prelude.{◌≡◌, IfOk};
ghost use Rattle.machine_code.specs.Blocks.{ArePositions, position_in};

use ir_tree::Block;
use std::alloc::{AllocError, Global};
use std::collections::HashMap;

/// The positions of a function's blocks by number, and how many blocks there are.
#[derive(Drop)]
pub(crate) struct Positions {
    by_number: HashMap<u32, u32>,
    count: u32,
}

impl Positions {
    /// The positions of these blocks, by one pass from the last: of two of one number the first counts.
    ///
    /// Beside want of memory, `2^32` blocks or more are refused as too many for it.
    pub(crate) fn of(alloc: Global, blocks: &[Block]) -> Result<Positions, AllocError>
        ensures { IfOk result (λ p. ArePositions blocks.now p) }
    {
        if blocks.len() > u32::MAX as usize {
            return Err(AllocError);
        }
        let count = blocks.len() as u32;
        let mut by_number = HashMap::new(alloc);
        let mut position = count;
        while position > 0 {
            position -= 1;
            by_number.insert(blocks[position as usize].number, position)?;
        }
        Ok(Positions { by_number, count })
    }

    /// The position of the block of a number; where none has it, how many blocks there are.
    pub(crate) fn at(&self, number: u32) -> u32
        ensures { result ≡ position_in self.now number }
    {
        match self.by_number.get(&number) {
            Some(position) => *position,
            None => self.count,
        }
    }
}
