//! Blocks that can go into another one.
ghost use Rattle.std.specs.Prelude.{◌≡◌, ◌&&◌, ℕ, nat_eq, length, IfOk};
ghost use Rattle.std.specs.HashSet as hash;
ghost use Rattle.ir_flow.specs.OfFunction.{IsGraphOf};
ghost use Rattle.block_trim.specs.Merged.{behind_entry};
ghost use Rattle.block_trim.specs.Working.{has_one_edge, may_go};

use crate::reached::add_if;
use ir_flow::Edges;
use ir_tree::{Block, Function};
use std::alloc::{AllocError, Global};
use std::collections::HashSet;

/// Whether a block, by its predecessor edges, has no phis and one edge.
fn is_candidate(block: &Block, edges: &[u32]) -> bool
    ensures { result ≡ (nat_eq (length block.now.phis) 0 && nat_eq (length edges.now) 1) }
{
    block.phis.len() == 0 && edges.len() == 1
}

/// The numbers of the blocks behind the entry that have no phis and to which one edge leads.
pub(crate) fn candidates(
    alloc: Global,
    f: &Function,
    edges: &Edges,
) -> Result<HashSet<u32>, AllocError>
    requires graph { IsGraphOf f.now edges.now }
    ensures { IfOk result (λ s. (n : ℕ) → hash.contains nat_eq s n ≡ may_go (has_one_edge f.now.blocks) (behind_entry f.now.blocks) n) }
{
    let blocks = f.blocks.as_slice();
    let mut numbers = HashSet::new(alloc);
    for place in 1..blocks.len() {
        let block = &blocks[place];
        let wanted = is_candidate(block, edges.of(place));
        add_if(&mut numbers, block.number, wanted)?;
    }
    Ok(numbers)
}
