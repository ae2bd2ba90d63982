//! What is known of a function's control flow.
ghost use Rattle.std.specs.Prelude.{IfOk};
ghost use Rattle.ir_flow.specs.OfFunction.{IsFlowOf};

use crate::graph::Edges;
use crate::predecessors::preds;
use crate::reach::reached_over;
use ir_tree::Function;
use lto_sets::Bits;
use std::alloc::{AllocError, Global};

/// The predecessor edges of a function's blocks, and the blocks that are reached from its entry, by their place.
#[derive(Drop)]
pub struct Flow {
    pub edges: Edges,
    pub reached: Bits,
}

impl Flow {
    /// That of a function.
    ///
    /// Beside want of memory, a function of `2^32` blocks or more is refused as too large for it. Time and memory
    /// are linear in the blocks, the edges and the greatest number of a block.
    pub fn of(alloc: Global, function: &Function) -> Result<Flow, AllocError>
        ensures { IfOk result (IsFlowOf function.now) }
    {
        let edges = preds(alloc, function)?;
        let reached = reached_over(alloc, &edges)?;
        Ok(Flow { edges, reached })
    }
}
