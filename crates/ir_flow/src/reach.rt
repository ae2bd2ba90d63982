//! The blocks of a function that are reached from its entry.
ghost use Rattle.std.specs.Prelude.{IfOk};
ghost use Rattle.ir_tree.specs.declared.function.Function.{Function};
ghost use Rattle.ir_flow.specs.OfFunction.{IsGraphOf, IsReach};

use crate::graph::Edges;
use crate::predecessors::preds;
use crate::search::{Order, searched};
use ir_tree::Function;
use lto_sets::Bits;
use std::alloc::{AllocError, Global};

/// The blocks that are reached from the entry of a function that has these predecessor edges, by their place.
pub(crate) fn reached_over(alloc: Global, edges: &Edges) -> Result<Bits, AllocError>
    requires { (f : Function) × IsGraphOf f edges.now }
    ensures { IfOk result (λ reached. (f : Function) → IsGraphOf f edges.now → IsReach f reached) }
{
    if edges.len() == 0 {
        return Bits::new(alloc, 0);
    }
    let targets = edges.inverse(alloc, edges.len())?;
    let Order {
        blocks: _,
        parents: _,
        numbers: _,
        reached,
    } = searched(alloc, &targets)?;
    Ok(reached)
}

/// The blocks of a function that are reached from its entry, by their place; none of a declaration.
///
/// Beside want of memory, a function of `2^32` blocks or more is refused as too large for it. Time and memory
/// are linear in the blocks, the edges and the greatest number of a block.
pub fn reachable(alloc: Global, function: &Function) -> Result<Bits, AllocError>
    ensures { IfOk result (IsReach function.now) }
{
    let edges = preds(alloc, function)?;
    let reached = reached_over(alloc, &edges)?;
    Ok(reached)
}
