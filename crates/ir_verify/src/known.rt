//! What is known of a function before its items are checked.
ghost use Rattle.std.specs.Prelude.{◌≡◌, IfOk};
ghost use Rattle.ir_verify.specs.Known.{IsKnown};

use crate::definitions::{Definition, definitions, places};
use crate::table::Table;
use ir_flow::{Dominators, Edges, Flow, preds};
use ir_tree::Function;
use lto_sets::Bits;
use std::alloc::{AllocError, Global};

/// The definitions of a function's locals, the places of its blocks, the edges into them, which are reached, and their dominators.
#[derive(Drop)]
pub struct Known {
    pub locals: Table<Definition>,
    pub places: Table<usize>,
    pub preds: Edges,
    pub reached: Bits,
    pub dominators: Dominators,
}

/// What is known of a function. Memory is linear in the function and its greatest number, and so is time, but for the dominators,
/// which take near linear time where control flow is reducible.
pub fn learned(alloc: Global, function: &Function) -> Result<Known, AllocError>
    ensures { IfOk result (λ known. IsKnown function.now known) }
{
    let locals = definitions(alloc, function)?;
    let places = places(alloc, function.blocks.as_slice())?;
    let preds = preds(alloc, function)?;
    let (dominators, reached) = Dominators::over(alloc, &preds)?;
    Ok(Known {
        locals,
        places,
        preds,
        reached,
        dominators,
    })
}

impl Known {
    /// What is known of control flow: the edges into the blocks, and which of these are reached.
    pub(crate) fn into_flow(self) -> Flow
        ensures { result ≡ record { edges = self.preds; reached = self.reached } }
    {
        let Known {
            locals: _,
            places: _,
            preds,
            reached,
            dominators: _,
        } = self;
        Flow {
            edges: preds,
            reached,
        }
    }
}
