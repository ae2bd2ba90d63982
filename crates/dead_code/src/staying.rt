//! Whether all of a function is needed.
ghost use Rattle.std.specs.Prelude.{◌≡◌, nat_eq};
ghost use Rattle.std.specs.HashSet.{contains};
ghost use Rattle.dead_code.specs.Staying.{block_stays, blocks_stay, lines_stay, phis_stay};

use crate::sweep::is_needed;
use ir_tree::{Block, Line, Phi};
use std::collections::HashSet;

fn phis_stay(kept: &HashSet<u32>, phis: &[Phi]) -> bool
    ensures { result ≡ phis_stay (contains nat_eq kept.now) phis.now }
{
    for phi in phis {
        if !kept.contains(&phi.local) {
            return false;
        }
    }
    true
}

fn lines_stay(kept: &HashSet<u32>, lines: &[Line]) -> bool
    ensures { result ≡ lines_stay (contains nat_eq kept.now) lines.now }
{
    for line in lines {
        if !is_needed(kept, line) {
            return false;
        }
    }
    true
}

fn block_stays(kept: &HashSet<u32>, block: &Block) -> bool
    ensures { result ≡ block_stays (contains nat_eq kept.now) block.now }
{
    phis_stay(kept, block.phis.as_slice()) && lines_stay(kept, block.lines.as_slice())
}

/// Whether each phi and each instruction of these blocks is needed.
pub(crate) fn blocks_stay(kept: &HashSet<u32>, blocks: &[Block]) -> bool
    ensures { result ≡ blocks_stay (contains nat_eq kept.now) blocks.now }
{
    for block in blocks {
        if !block_stays(kept, block) {
            return false;
        }
    }
    true
}
