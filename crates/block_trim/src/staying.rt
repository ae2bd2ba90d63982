//! Whether all blocks of a function are reached.
ghost use Rattle.std.specs.Prelude.{◌≡◌, nat_eq};
ghost use Rattle.std.specs.HashSet.{contains};
ghost use Rattle.block_trim.specs.Staying.{block_stays, blocks_stay, entries_stay, phis_stay};

use ir_tree::{Block, Incoming, Phi};
use std::collections::HashSet;

fn entries_stay(reached: &HashSet<u32>, entries: &[Incoming]) -> bool
    ensures { result ≡ entries_stay (contains nat_eq reached.now) entries.now }
{
    for entry in entries {
        if !reached.contains(&entry.from) {
            return false;
        }
    }
    true
}

fn phis_stay(reached: &HashSet<u32>, phis: &[Phi]) -> bool
    ensures { result ≡ phis_stay (contains nat_eq reached.now) phis.now }
{
    for phi in phis {
        if !entries_stay(reached, phi.incoming.as_slice()) {
            return false;
        }
    }
    true
}

fn block_stays(reached: &HashSet<u32>, block: &Block) -> bool
    ensures { result ≡ block_stays (contains nat_eq reached.now) block.now }
{
    reached.contains(&block.number) && phis_stay(reached, block.phis.as_slice())
}

/// Whether each of these blocks is reached, and so is each that a phi entry names.
pub(crate) fn blocks_stay(reached: &HashSet<u32>, blocks: &[Block]) -> bool
    ensures { result ≡ blocks_stay (contains nat_eq reached.now) blocks.now }
{
    for block in blocks {
        if !block_stays(reached, block) {
            return false;
        }
    }
    true
}
