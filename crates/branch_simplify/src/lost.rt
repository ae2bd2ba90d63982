//! The edges that are lost as terminators become jumps, by the blocks to which they lead.
ghost use Rattle.std.specs.Prelude.{◌≡◌, ◌++◌, ◌∷◌, [], ℕ, nat_eq, IfOk, OnOk};
ghost use Rattle.ir_tree.specs.Flow.{repeated};
ghost use Rattle.branch_simplify.specs.Decided.{lost, without_first};
ghost use Rattle.branch_simplify.specs.Simplified.{lost_into};
ghost use Rattle.branch_simplify.specs.Tables.{lost_at};

use crate::decide::decided;
use ir_flow::push_targets;
use ir_tree::{Block, Terminator};
use std::alloc::{AllocError, Global};
use std::collections::HashMap;

/// The numbers without the first that is this one.
fn without_first(alloc: Global, number: u32, numbers: &[u32]) -> Result<Vec<u32>, AllocError>
    ensures { IfOk result (λ v. v.items ≡ without_first number numbers.now) }
{
    let mut others = Vec::new(alloc);
    let mut found = false;
    for other in numbers {
        if !found && *other == number {
            found = true;
        } else {
            others.push(*other)?;
        }
    }
    Ok(others)
}

/// The targets of the edges that a terminator loses.
fn lost(alloc: Global, end: &Terminator) -> Result<Vec<u32>, AllocError>
    ensures { IfOk result (λ v. v.items ≡ lost end.now) }
{
    match decided(end) {
        None => Ok(Vec::new(alloc)),
        Some(target) => {
            let mut targets = Vec::new(alloc);
            push_targets(&mut targets, end)?;
            without_first(alloc, target, &targets)
        }
    }
}

/// The blocks that lose edges to each block, one number for each edge.
#[derive(Drop)]
pub(crate) struct LostEdges {
    by_target: HashMap<u32, Vec<u32>>,
}

impl LostEdges {
    /// One more edge, between these blocks.
    fn add(&mut self, alloc: Global, source: u32, target: u32) -> Result<(), AllocError>
        ensures { OnOk result ((m : ℕ) → lost_at self.new m ≡ lost_at self.old m ++ repeated source m (target ∷ [])) }
    {
        let mut row = match self.by_target.remove(&target) {
            Some(row) => row,
            None => Vec::new(alloc),
        };
        row.push(source)?;
        self.by_target.insert(target, row)?;
        Ok(())
    }

    /// Edges from one block to these.
    fn add_all(&mut self, alloc: Global, source: u32, targets: &[u32]) -> Result<(), AllocError>
        ensures { OnOk result ((m : ℕ) → lost_at self.new m ≡ lost_at self.old m ++ repeated source m targets.now) }
    {
        for target in targets {
            self.add(alloc, source, *target)?;
        }
        Ok(())
    }

    /// The edges that these blocks lose.
    pub(crate) fn of(alloc: Global, blocks: &[Block]) -> Result<Self, AllocError>
        ensures { IfOk result (λ l. (m : ℕ) → lost_at l m ≡ lost_into m blocks.now) }
    {
        let mut edges = LostEdges {
            by_target: HashMap::new(alloc),
        };
        for block in blocks {
            let lost = lost(alloc, &block.end)?;
            edges.add_all(alloc, block.number, &lost)?;
        }
        Ok(edges)
    }

    /// The blocks that lose edges to the block of this number.
    pub(crate) fn into_block(&self, number: u32) -> &[u32]
        ensures { result.now ≡ lost_at self.now number }
    {
        match self.by_target.get(&number) {
            Some(row) => row.as_slice(),
            None => &[],
        }
    }
}
