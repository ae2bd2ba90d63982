//! A function without the phis and instructions that nobody needs.
ghost use Rattle.std.specs.Prelude.{◌≡◌, nat_eq, IfOk, option_map};
ghost use Rattle.std.specs.HashSet.{contains};
ghost use Rattle.ir_meaning.specs.Needed.{is_needed, local_kept, needed, needed_block, needed_blocks, needed_lines, needed_phis};

use crate::uses::is_effect;
use ir_tree::{Block, Duplicate, Function, Line, Phi, Rows};
use std::alloc::{AllocError, Global};
use std::collections::HashSet;

pub(crate) fn is_needed(kept: &HashSet<u32>, line: &Line) -> bool
    ensures { result ≡ is_needed (contains nat_eq kept.now) line.now }
{
    if is_effect(&line.instr) {
        return true;
    }
    match line.local {
        Some(local) => kept.contains(&local),
        None => false,
    }
}

fn phis(alloc: Global, kept: &HashSet<u32>, phis: &[Phi]) -> Result<Rows<Phi>, AllocError>
    ensures { IfOk result (λ rows. rows ≡ needed_phis (contains nat_eq kept.now) phis.now) }
{
    let mut rows = Rows::new(alloc);
    for phi in phis {
        if kept.contains(&phi.local) {
            rows.push(phi.duplicate(alloc)?)?;
        }
    }
    Ok(rows)
}

fn lines(alloc: Global, kept: &HashSet<u32>, lines: &[Line]) -> Result<Rows<Line>, AllocError>
    ensures { IfOk result (λ rows. rows ≡ needed_lines (contains nat_eq kept.now) lines.now) }
{
    let mut rows = Rows::new(alloc);
    for line in lines {
        if is_needed(kept, line) {
            rows.push(line.duplicate(alloc)?)?;
        }
    }
    Ok(rows)
}

fn block(alloc: Global, kept: &HashSet<u32>, block: &Block) -> Result<Block, AllocError>
    ensures { IfOk result (λ b. b ≡ needed_block (contains nat_eq kept.now) block.now) }
{
    let phis = phis(alloc, kept, block.phis.as_slice())?;
    let lines = lines(alloc, kept, block.lines.as_slice())?;
    let end = block.end.duplicate(alloc)?;
    Ok(Block {
        number: block.number,
        phis,
        lines,
        end,
    })
}

fn blocks(alloc: Global, kept: &HashSet<u32>, blocks: &[Block]) -> Result<Rows<Block>, AllocError>
    ensures { IfOk result (λ rows. rows ≡ needed_blocks (contains nat_eq kept.now) blocks.now) }
{
    let mut rows = Rows::new(alloc);
    for old in blocks {
        rows.push(block(alloc, kept, old)?)?;
    }
    Ok(rows)
}

/// The function with its stores and calls and with what gives a kept local its value.
pub(crate) fn swept(
    alloc: Global,
    kept: &HashSet<u32>,
    f: &Function,
) -> Result<Function, AllocError>
    ensures { IfOk result (λ g. g ≡ needed (contains nat_eq kept.now) f.now) }
{
    let symbol = f.symbol.duplicate(alloc)?;
    let params = f.params.duplicate(alloc)?;
    let blocks = blocks(alloc, kept, f.blocks.as_slice())?;
    Ok(Function {
        symbol,
        linkage: f.linkage,
        result: f.result,
        params,
        noinline: f.noinline,
        optnone: f.optnone,
        blocks,
    })
}
