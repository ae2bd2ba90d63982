//! The first number that is free in a function.
ghost use Rattle.std.specs.Prelude.{◌≡◌, suc, ◌++◌, max, IfOk};
ghost use Rattle.ir_tree.specs.Flow.{room};
ghost use Rattle.ir_edit.specs.Numbered.{block_numbers, blocks_numbers, line_numbers, numbers_of, param_numbers, phi_numbers};
ghost use Rattle.inline_site.specs.Copies.{first_free};

use ir_tree::{Block, Function, Line, Param, Phi};
use std::alloc::AllocError;

/// The first number that is free where this one isn't either.
fn past(free: u64, number: u32) -> u64
    ensures { result ≡ max (suc number) free }
{
    free.max(number as u64 + 1)
}

fn past_params(free: u64, params: &[Param]) -> u64
    ensures { result ≡ max free (room (param_numbers params.now)) }
{
    let mut free = free;
    for param in params {
        free = past(free, param.local);
    }
    free
}

fn past_phis(free: u64, phis: &[Phi]) -> u64
    ensures { result ≡ max free (room (phi_numbers phis.now)) }
{
    let mut free = free;
    for phi in phis {
        free = past(free, phi.local);
    }
    free
}

fn past_lines(free: u64, lines: &[Line]) -> u64
    ensures { result ≡ max free (room (line_numbers lines.now)) }
{
    let mut free = free;
    for line in lines {
        if let Some(local) = line.local {
            free = past(free, local);
        }
    }
    free
}

fn past_block(free: u64, block: &Block) -> u64
    ensures { result ≡ max free (room (block_numbers block.now)) }
{
    let free = past(free, block.number);
    let free = past_phis(free, block.phis.as_slice());
    past_lines(free, block.lines.as_slice())
}

fn past_blocks(free: u64, blocks: &[Block]) -> u64
    ensures { result ≡ max free (room (blocks_numbers blocks.now)) }
{
    let mut free = free;
    for block in blocks {
        free = past_block(free, block);
    }
    free
}

/// One past the greatest number of these parameters and blocks.
pub(crate) fn past_all(params: &[Param], blocks: &[Block]) -> u64
    ensures { result ≡ room (param_numbers params.now ++ blocks_numbers blocks.now) }
{
    let free = past_params(0, params);
    past_blocks(free, blocks)
}

/// One past the greatest number of the function's locals and blocks.
///
/// Refused where it passes 32 bits.
pub(crate) fn first_free(f: &Function) -> Result<u32, AllocError>
    ensures { IfOk result (λ n. n ≡ first_free f.now) }
{
    let free = past_all(f.params.as_slice(), f.blocks.as_slice());
    if free > u32::MAX as u64 {
        return Err(AllocError);
    }
    Ok(free as u32)
}
