//! Unreachable blocks dropped.
ghost use Rattle.std.specs.Prelude.{◌≡◌, false, nat_eq, map, IfOk};
ghost use Rattle.std.specs.HashSet.{contains};
ghost use Rattle.ir_tree.specs.Rules.{Sound};
ghost use Rattle.ir_meaning.specs.Near.{BetterThan};
ghost use Rattle.ir_meaning.specs.Program.{Program};
ghost use Rattle.ir_meaning.specs.Formed.{IsFormed};
ghost use Rattle.ir_flow.specs.OfFunction.{IsReach};
ghost use Rattle.block_trim.specs.Trimmed.{IsTrimOf, block_in, blocks_in, entries_in, phi_in, trimmed};

use crate::reached::reached_numbers;
use crate::staying::blocks_stay;
use ir_flow::reachable;
use ir_tree::{Block, Duplicate, Function, Incoming, Phi, Rows};
use lto_sets::Bits;
use std::alloc::{AllocError, Global};
use std::collections::HashSet;

fn entries_in(
    alloc: Global,
    reached: &HashSet<u32>,
    entries: &[Incoming],
) -> Result<Rows<Incoming>, AllocError>
    ensures { IfOk result (λ rows. rows ≡ entries_in (contains nat_eq reached.now) entries.now) }
{
    let mut rows = Rows::new(alloc);
    for entry in entries {
        if reached.contains(&entry.from) {
            rows.push(entry.duplicate(alloc)?)?;
        }
    }
    Ok(rows)
}

fn phi_in(alloc: Global, reached: &HashSet<u32>, phi: &Phi) -> Result<Phi, AllocError>
    ensures { IfOk result (λ p. p ≡ phi_in (contains nat_eq reached.now) phi.now) }
{
    let incoming = entries_in(alloc, reached, phi.incoming.as_slice())?;
    Ok(Phi {
        local: phi.local,
        reg: phi.reg,
        incoming,
    })
}

fn phis_in(alloc: Global, reached: &HashSet<u32>, phis: &[Phi]) -> Result<Rows<Phi>, AllocError>
    ensures { IfOk result (λ rows. rows ≡ map (phi_in (contains nat_eq reached.now)) phis.now) }
{
    let mut rows = Rows::new(alloc);
    for phi in phis {
        rows.push(phi_in(alloc, reached, phi)?)?;
    }
    Ok(rows)
}

fn block_in(alloc: Global, reached: &HashSet<u32>, block: &Block) -> Result<Block, AllocError>
    ensures { IfOk result (λ b. b ≡ block_in (contains nat_eq reached.now) block.now) }
{
    let phis = phis_in(alloc, reached, block.phis.as_slice())?;
    let lines = block.lines.duplicate(alloc)?;
    let end = block.end.duplicate(alloc)?;
    Ok(Block {
        number: block.number,
        phis,
        lines,
        end,
    })
}

fn blocks_in(
    alloc: Global,
    reached: &HashSet<u32>,
    blocks: &[Block],
) -> Result<Rows<Block>, AllocError>
    ensures { IfOk result (λ rows. rows ≡ blocks_in (contains nat_eq reached.now) blocks.now) }
{
    let mut rows = Rows::new(alloc);
    for block in blocks {
        if reached.contains(&block.number) {
            rows.push(block_in(alloc, reached, block)?)?;
        }
    }
    Ok(rows)
}

fn trimmed(alloc: Global, reached: &HashSet<u32>, f: &Function) -> Result<Function, AllocError>
    ensures { IfOk result (λ g. g ≡ trimmed (contains nat_eq reached.now) f.now) }
{
    let symbol = f.symbol.duplicate(alloc)?;
    let params = f.params.duplicate(alloc)?;
    let blocks = blocks_in(alloc, reached, f.blocks.as_slice())?;
    Ok(Function {
        symbol,
        linkage: f.linkage,
        result: f.result,
        params,
        noinline: f.noinline,
        optnone: f.optnone,
        blocks,
    })
}

/// Unreachable blocks dropped: the function without the blocks to which no path leads from the entry, and without the phi
/// entries that name them. Numbers stay.
///
/// Beside want of memory, a function of `2^32` blocks or more is refused as too large for it.
pub fn trim(alloc: Global, f: &Function) -> Result<Function, AllocError>
    ensures trimmed { IfOk result (λ g. IsTrimOf f.now g) }
    ensures better { IfOk result (λ g. (p : Program) → IsFormed p → BetterThan p 1 g f.now) }
    ensures sound { IfOk result (λ g. Sound f.now → Sound g) }
{
    let places = reachable(alloc, f)?;
    let reached = reached_numbers(alloc, f, &places)?;
    let g = trimmed(alloc, &reached, f)?;
    Ok(g)
}

/// The trim of a function that is given up, whose caller knows the places of the blocks that are reached, and whether that may
/// be another one: where all blocks are reached it is the function itself.
pub fn into_trimmed(
    alloc: Global,
    f: Function,
    places: &Bits,
) -> Result<(Function, bool), AllocError>
    requires { IsReach f places.now }
    ensures trimmed { IfOk result (λ made. IsTrimOf f made.0) }
    ensures sound { IfOk result (λ made. Sound f → Sound made.0) }
    ensures same { IfOk result (λ made. made.1 ≡ false → made.0 ≡ f) }
{
    let reached = reached_numbers(alloc, &f, places)?;
    let all = blocks_stay(&reached, f.blocks.as_slice());
    if all {
        return Ok((f, false));
    }
    let g = trimmed(alloc, &reached, &f)?;
    Ok((g, true))
}
