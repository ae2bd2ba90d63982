//! Decided branches as jumps.
ghost use Rattle.std.specs.Prelude.{◌≡◌, false, map, IfOk};
ghost use Rattle.ir_tree.specs.Rules.{Sound};
ghost use Rattle.ir_meaning.specs.Near.{BetterThan};
ghost use Rattle.ir_meaning.specs.Program.{Program};
ghost use Rattle.ir_meaning.specs.Formed.{IsFormed};
ghost use Rattle.ir_meaning.specs.Counted.{times};
ghost use Rattle.branch_simplify.specs.Simplified.{lost_into, phi_left, simplified, simplified_block};
ghost use Rattle.branch_simplify.specs.Tables.{lost_at};

use crate::counts::Counts;
use crate::decide::straight;
use crate::entries::phis_left;
use crate::lost::LostEdges;
use crate::staying::ends_stay;
use ir_tree::{Block, Duplicate, Function, Phi, Rows};
use std::alloc::{AllocError, Global};

/// The phis of a block that loses an edge from each of these blocks.
fn phis(alloc: Global, sources: &[u32], phis: &[Phi]) -> Result<Rows<Phi>, AllocError>
    ensures { IfOk result (λ rows. rows ≡ map (phi_left (λ n. times n sources.now)) phis.now) }
{
    let lost = Counts::of(alloc, sources)?;
    let rows = phis_left(alloc, &lost, phis)?;
    Ok(rows)
}

fn block(alloc: Global, lost: &LostEdges, block: &Block) -> Result<Block, AllocError>
    ensures { IfOk result (λ b. b ≡ simplified_block (lost_at lost.now) block.now) }
{
    let phis = phis(alloc, lost.into_block(block.number), block.phis.as_slice())?;
    let lines = block.lines.duplicate(alloc)?;
    let end = straight(alloc, &block.end)?;
    Ok(Block {
        number: block.number,
        phis,
        lines,
        end,
    })
}

fn each_block(alloc: Global, lost: &LostEdges, blocks: &[Block]) -> Result<Rows<Block>, AllocError>
    ensures { IfOk result (λ rows. rows ≡ map (simplified_block (lost_at lost.now)) blocks.now) }
{
    let mut rows = Rows::new(alloc);
    for old in blocks {
        rows.push(block(alloc, lost, old)?)?;
    }
    Ok(rows)
}

fn blocks(alloc: Global, blocks: &[Block]) -> Result<Rows<Block>, AllocError>
    ensures { IfOk result (λ rows. rows ≡ map (simplified_block (λ m. lost_into m blocks.now)) blocks.now) }
{
    let lost = LostEdges::of(alloc, blocks)?;
    let rows = each_block(alloc, &lost, blocks)?;
    Ok(rows)
}

fn simplified(alloc: Global, f: &Function) -> Result<Function, AllocError>
    ensures { IfOk result (λ g. g ≡ simplified f.now) }
{
    let symbol = f.symbol.duplicate(alloc)?;
    let params = f.params.duplicate(alloc)?;
    let blocks = blocks(alloc, f.blocks.as_slice())?;
    Ok(Function {
        symbol,
        linkage: f.linkage,
        result: f.result,
        params,
        noinline: f.noinline,
        optnone: f.optnone,
        blocks,
    })
}

/// Branches simplified: the function with each `br` on `true` or `false` or with equal targets, and each `switch` on a
/// constant or without cases, as a jump. With an edge goes a phi entry of the block that it led to, the last one for its
/// block; all else stays.
///
/// Refused for want of memory alone.
pub fn branches(alloc: Global, f: &Function) -> Result<Function, AllocError>
    ensures simplified { IfOk result (λ g. g ≡ simplified f.now) }
    ensures better { IfOk result (λ g. Sound f.now → (p : Program) → IsFormed p → BetterThan p 1 g f.now) }
    ensures sound { IfOk result (λ g. Sound f.now → Sound g) }
{
    let g = simplified(alloc, f)?;
    Ok(g)
}

/// What [`branches`] makes of a function that is given up, and whether that may be another one: where no terminator is
/// decided it is the function itself.
pub fn into_simplified(alloc: Global, f: Function) -> Result<(Function, bool), AllocError>
    ensures simplified { IfOk result (λ made. made.0 ≡ simplified f) }
    ensures sound { IfOk result (λ made. Sound f → Sound made.0) }
    ensures same { IfOk result (λ made. made.1 ≡ false → made.0 ≡ f) }
{
    let stays = ends_stay(f.blocks.as_slice());
    if stays {
        return Ok((f, false));
    }
    let g = simplified(alloc, &f)?;
    Ok((g, true))
}
