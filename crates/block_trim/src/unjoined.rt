//! Whether all blocks stay.
ghost use Rattle.std.specs.Prelude.{◌≡◌, nat_eq};
ghost use Rattle.std.specs.HashSet.{contains};
ghost use Rattle.block_trim.specs.Unjoined.{all_stay, takes};

use ir_tree::{Block, Terminator};
use std::collections::HashSet;

/// Whether the block jumps to another one that can go.
fn takes(candidates: &HashSet<u32>, block: &Block) -> bool
    ensures { result ≡ takes (contains nat_eq candidates.now) block.now }
{
    match &block.end {
        Terminator::Jump(target) => *target != block.number && candidates.contains(target),
        _ => false,
    }
}

/// Whether none of these blocks takes another one.
pub(crate) fn all_stay(candidates: &HashSet<u32>, blocks: &[Block]) -> bool
    ensures { result ≡ all_stay (contains nat_eq candidates.now) blocks.now }
{
    for block in blocks {
        if takes(candidates, block) {
            return false;
        }
    }
    true
}
