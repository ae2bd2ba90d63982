//! A function with other blocks.
ghost use Rattle.std.specs.Prelude.{◌≡◌, IfOk};

use ir_tree::{Block, Duplicate, Function, Rows};
use std::alloc::{AllocError, Global};

/// The function with these blocks in place of its own.
pub fn with_blocks(alloc: Global, f: &Function, blocks: Rows<Block>) -> Result<Function, AllocError>
    ensures { IfOk result (λ g. g ≡ record f.now { blocks = blocks }) }
{
    let symbol = f.symbol.duplicate(alloc)?;
    let params = f.params.duplicate(alloc)?;
    Ok(Function {
        symbol,
        linkage: f.linkage,
        result: f.result,
        params,
        noinline: f.noinline,
        optnone: f.optnone,
        blocks,
    })
}
