//! The items of a function, one after another.
ghost use Rattle.std.specs.Prelude.{◌≡◌, ◌+◌, ◌<◌, length, IfOk, Some, slice_get};
ghost use Rattle.ir_tree.specs.Formed.{Formed};
ghost use Rattle.ir_tree.specs.Items.{items};
ghost use Rattle.ir_verify.specs.Known.{IsKnown};
ghost use Rattle.ir_verify.specs.Orders.{IsPast, Went};
ghost use Rattle.ir_verify.specs.Standing.{Stands};
ghost use Rattle.ir_verify.specs.Walks.{IsWalk};

use crate::fault::{VerifyFault, noted};
use crate::items::{end_broken, line_broken, phi_broken};
use crate::known::Known;
use ir_tree::{Block, Function};
use std::alloc::{AllocError, Global};

/// The line of an item, whose number is given in three parts.
fn line_of(lines: &[u32], first: usize, second: usize, third: usize) -> u32
    requires { first + second + third < length lines.now }
    ensures { slice_get lines.now (first + second + third) ≡ Some result }
{
    lines[first + second + third]
}

/// The number of the item behind those of a block.
fn behind(lines: &[u32], first: usize, second: usize, third: usize) -> usize
    requires { first + second + third < length lines.now }
    ensures { result ≡ first + second + third + 1 }
{
    first + second + third + 1
}

/// A walk over the items of a function: what is known of it, the lines on which its items stand, and the number by which it goes.
#[derive(Drop)]
struct Walk<'a> {
    function: &'a Function,
    known: &'a Known,
    lines: &'a [u32],
    number: u32,
}

impl Walk<'_> {
    /// The first fault over the phis of a block, whose items stand from `at` on, and what was found before.
    fn phis_fault(
        &self,
        alloc: Global,
        place: usize,
        at: usize,
        block: &Block,
        found: Option<VerifyFault>,
    ) -> Result<Option<VerifyFault>, AllocError>
        requires walk { IsWalk self.now }
        requires stands { Stands self.now.function.now place block.now at }
        ensures { IfOk result (λ new. Went self.now.function.now self.now.lines.now self.now.number at found (at + length block.now.phis) new) }
    {
        let mut best = found;
        let phis = block.phis.as_slice();
        for phi in 0..phis.len() {
            let broken = phi_broken(alloc, self.function, self.known, place, &phis[phi])?;
            let on = line_of(self.lines, at, phi, 0);
            best = noted(best, Some(self.number), on, broken);
        }
        Ok(best)
    }

    /// The first fault over the lines of a block, whose items stand from `at` on, and what was found before.
    fn lines_fault(
        &self,
        alloc: Global,
        place: usize,
        at: usize,
        block: &Block,
        found: Option<VerifyFault>,
    ) -> Result<Option<VerifyFault>, AllocError>
        requires walk { IsWalk self.now }
        requires stands { Stands self.now.function.now place block.now at }
        ensures { IfOk result (λ new. Went self.now.function.now self.now.lines.now self.now.number (at + length block.now.phis) found (at + length block.now.phis + length block.now.lines) new) }
    {
        let mut best = found;
        let items = block.lines.as_slice();
        for line in 0..items.len() {
            let broken = line_broken(alloc, self.function, self.known, place, line, &items[line])?;
            let on = line_of(self.lines, at, block.phis.len(), line);
            best = noted(best, Some(self.number), on, broken);
        }
        Ok(best)
    }

    /// The first fault over the items of a block, which stand from `at` on, and what was found before.
    fn block_fault(
        &self,
        alloc: Global,
        place: usize,
        at: usize,
        block: &Block,
        found: Option<VerifyFault>,
    ) -> Result<Option<VerifyFault>, AllocError>
        requires walk { IsWalk self.now }
        requires stands { Stands self.now.function.now place block.now at }
        ensures { IfOk result (λ new. Went self.now.function.now self.now.lines.now self.now.number at found (at + length block.now.phis + length block.now.lines + 1) new) }
    {
        let phis = self.phis_fault(alloc, place, at, block, found)?;
        let best = self.lines_fault(alloc, place, at, block, phis)?;
        let broken = end_broken(alloc, self.function, self.known, place, &block.end)?;
        let on = line_of(self.lines, at, block.phis.len(), block.lines.len());
        Ok(noted(best, Some(self.number), on, broken))
    }
}

/// The first fault of a function of which this is known, which goes by this number and whose items stand on these lines, and of what
/// was found before: on the least line, and there of the least rule. Time is linear in the function, but for the sorting of entries
/// and cases.
pub fn function_fault(
    alloc: Global,
    function: &Function,
    known: &Known,
    lines: &[u32],
    number: u32,
    found: Option<VerifyFault>,
) -> Result<Option<VerifyFault>, AllocError>
    requires formed { Formed function.now }
    requires lined { length lines.now ≡ length (items function.now) }
    requires known { IsKnown function.now known.now }
    ensures { IfOk result (λ new. IsPast function.now lines.now number found new) }
{
    let walk = Walk {
        function,
        known,
        lines,
        number,
    };
    let mut best = found;
    let mut at = 0;
    let blocks = function.blocks.as_slice();
    for place in 0..blocks.len() {
        let block = &blocks[place];
        best = walk.block_fault(alloc, place, at, block, best)?;
        at = behind(lines, at, block.phis.len(), block.lines.len());
    }
    Ok(best)
}
