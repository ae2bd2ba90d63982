//! How long a function is.
ghost use Rattle.std.specs.Prelude.{◌≡◌, ◌+◌, length, sum_by, IfOk};
ghost use Rattle.ir_tree.specs.Items.{items, block_items};

use ir_tree::{Block, Function};
use std::alloc::AllocError;

fn block_count(block: &Block) -> Result<u32, AllocError>
    ensures { IfOk result (λ n. n ≡ length block.now.phis + length block.now.lines + 1) }
{
    let phis = block.phis.len() as u64;
    let lines = block.lines.len() as u64;
    if phis >= 0x7FFF_FFFF || lines >= 0x7FFF_FFFF {
        return Err(AllocError);
    }
    Ok((phis + lines + 1) as u32)
}

/// How many phis, instructions and terminators a function has; refused where these are `2^32` or more.
pub(crate) fn count_of(function: &Function) -> Result<u32, AllocError>
    ensures { IfOk result (λ n. n ≡ length (items function.now)) }
{
    let mut count: u32 = 0;
    for block in function.blocks.as_slice() {
        let more = block_count(block)?;
        let Some(next) = count.checked_add(more) else {
            return Err(AllocError);
        };
        count = next;
    }
    Ok(count)
}
