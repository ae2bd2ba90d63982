//! The numbers that new phis get.
ghost use Rattle.std.specs.Prelude.{◌≡◌, ℕ, max, map, flat_map, length, IfOk};
ghost use Rattle.ir_tree.specs.Flow.{definitions, results, room};
ghost use Rattle.ir_flow.specs.Graph.{row};
ghost use Rattle.slot_promote.specs.Promoted.{first_phi, next_number, takes};
ghost use Rattle.slot_promote.specs.Tables.{first_in};

use ir_flow::Edges;
use ir_tree::{Block, Function, Line, Param, Phi};
use std::alloc::{AllocError, Global};

fn above_params(params: &[Param]) -> usize
    ensures { result ≡ room (map (λ p. p.local) params.now) }
{
    let mut next: usize = 0;
    for param in params {
        next = next.max(param.local as usize + 1);
    }
    next
}

fn above_phis(phis: &[Phi]) -> usize
    ensures { result ≡ room (map (λ p. p.local) phis.now) }
{
    let mut next: usize = 0;
    for phi in phis {
        next = next.max(phi.local as usize + 1);
    }
    next
}

fn above_results(lines: &[Line]) -> usize
    ensures { result ≡ room (results lines.now) }
{
    let mut next: usize = 0;
    for line in lines {
        if let Some(local) = line.local {
            next = next.max(local as usize + 1);
        }
    }
    next
}

fn above_blocks(blocks: &[Block]) -> usize
    ensures { result ≡ max (room (flat_map definitions blocks.now)) (room (map (λ b. b.number) blocks.now)) }
{
    let mut next: usize = 0;
    for block in blocks {
        let phis = above_phis(block.phis.as_slice());
        let results = above_results(block.lines.as_slice());
        next = next.max(phis).max(results).max(block.number as usize + 1);
    }
    next
}

/// The least number above those of all locals and blocks.
pub(crate) fn next_number(f: &Function) -> usize
    ensures { result ≡ next_number f.now }
{
    let params = above_params(f.params.as_slice());
    let blocks = above_blocks(f.blocks.as_slice());
    params.max(blocks)
}

/// Whether the block at a place takes the slots' values by phis.
fn takes(place: usize, sources: &[u32]) -> bool
    ensures { result ≡ takes place sources.now }
{
    place != 0 && !sources.is_empty()
}

/// The number of each block's first new phi, where so many slots are promoted and this number is the first that is
/// free.
///
/// Beside want of memory, numbers past 64 bits are refused.
pub(crate) fn first_phis(
    alloc: Global,
    edges: &Edges,
    slots: usize,
    next: usize,
) -> Result<Vec<Option<usize>>, AllocError>
    ensures length { IfOk result (λ firsts. length firsts.items ≡ length edges.now) }
    ensures firsts { IfOk result (λ firsts. (p : ℕ) → first_in firsts.items p ≡ first_phi (row edges.now) slots next p) }
{
    let mut firsts = Vec::new(alloc);
    let mut free = next;
    for place in 0..edges.len() {
        if takes(place, edges.of(place)) {
            firsts.push(Some(free))?;
            free = match free.checked_add(slots) {
                Some(more) => more,
                None => return Err(AllocError),
            };
        } else {
            firsts.push(None)?;
        }
    }
    Ok(firsts)
}
