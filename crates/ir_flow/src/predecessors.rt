//! The predecessor edges of a function's blocks.
ghost use Rattle.std.specs.Prelude.{◌≡◌, ℕ, ◌<◌, ◌++◌, map, length, slice_index, IfOk, OnOk};
ghost use Rattle.ir_flow.specs.Graph.{row};
ghost use Rattle.ir_flow.specs.OfFunction.{IsGraphOf};
ghost use Rattle.ir_tree.specs.Flow.{successors as targets_of};

use crate::graph::Edges;
use ir_tree::{Block, Function, Terminator};
use std::alloc::{AllocError, Global};

/// Adds the numbers of the blocks to which a terminator leads, one for each edge, as they are written.
pub fn push_targets(numbers: &mut Vec<u32>, end: &Terminator) -> Result<(), AllocError>
    ensures { OnOk result (numbers.new.items ≡ numbers.old.items ++ targets_of end.now) }
{
    match end {
        Terminator::Return(_) | Terminator::Unreachable => {}
        Terminator::Jump(target) => numbers.push(*target)?,
        Terminator::Branch {
            if_true,
            if_false,
            ..
        } => numbers.extend_from_slice(&[*if_true, *if_false])?,
        Terminator::Switch { default, cases, .. } => {
            numbers.push(*default)?;
            for case in cases.as_slice() {
                numbers.push(case.target)?;
            }
        }
    }
    Ok(())
}

/// The numbers of the blocks to which each block leads.
fn target_numbers(alloc: Global, blocks: &[Block]) -> Result<Edges, AllocError>
    ensures { IfOk result (λ e. e ≡ map (λ b. targets_of b.end) blocks.now) }
{
    let mut rows = Edges::new(alloc);
    let mut numbers = Vec::new(alloc);
    for block in blocks {
        numbers.clear();
        push_targets(&mut numbers, &block.end)?;
        rows.push(&numbers)?;
    }
    Ok(rows)
}

/// The blocks' own numbers.
fn block_numbers(alloc: Global, blocks: &[Block]) -> Result<Vec<u32>, AllocError>
    ensures { IfOk result (λ v. v.items ≡ map (λ b. b.number) blocks.now) }
{
    let mut numbers = Vec::with_capacity(alloc, blocks.len())?;
    for block in blocks {
        numbers.push(block.number)?;
    }
    Ok(numbers)
}

/// One past the greatest of these numbers.
fn limit_of(numbers: &[u32]) -> usize
    ensures { (k : ℕ) → k < length numbers.now → slice_index numbers.now k < result }
{
    let mut limit = 0;
    for number in numbers {
        limit = limit.max(*number as usize + 1);
    }
    limit
}

/// The predecessor edges of each block: the places of the blocks that lead to it, one for each edge, by the
/// predecessor's place and then by the place in its terminator (LangRef, "Terminator Instructions").
///
/// Beside want of memory, a function of `2^32` blocks or more is refused as too large for it. Time and memory
/// are linear in the blocks, the edges and the greatest number of a block.
pub fn preds(alloc: Global, function: &Function) -> Result<Edges, AllocError>
    ensures { IfOk result (λ e. IsGraphOf function.now e) }
{
    let blocks = function.blocks.as_slice();
    if blocks.len() > u32::MAX as usize {
        return Err(AllocError);
    }
    let numbers = block_numbers(alloc, blocks)?;
    let limit = limit_of(&numbers);
    let by_number = target_numbers(alloc, blocks)?.inverse(alloc, limit)?;
    by_number.picked(alloc, &numbers)
}
