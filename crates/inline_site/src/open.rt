//! A block that is being made.
ghost use Rattle.std.specs.Prelude.{◌≡◌, [], ◌∷◌, ◌++◌, IfOk, OnOk};
ghost use Rattle.inline_site.specs.Callers.{ended, started};

use ir_tree::{Block, Duplicate, Line, Phi, Rows, Terminator};
use std::alloc::{AllocError, Global};

/// A block to which instructions are added.
#[derive(Drop)]
pub struct Open {
    pub(crate) number: u32,
    pub(crate) phis: Rows<Phi>,
    pub(crate) lines: Rows<Line>,
}

impl Open {
    /// The start of this block, with its phis and no instruction.
    pub fn of(alloc: Global, block: &Block) -> Result<Open, AllocError>
        ensures { IfOk result (λ o. o ≡ started block.now) }
    {
        let phis = block.phis.duplicate(alloc)?;
        Ok(Open {
            number: block.number,
            phis,
            lines: Rows::new(alloc),
        })
    }

    /// The phis of the block.
    pub fn phis(&self) -> &[Phi]
        ensures { result.now ≡ self.now.phis }
    {
        self.phis.as_slice()
    }

    /// Adds an instruction.
    pub fn push(&mut self, alloc: Global, line: &Line) -> Result<(), AllocError>
        ensures { OnOk result (self.new ≡ record self.old { lines = self.old.lines ++ line.now ∷ [] }) }
    {
        let line = line.duplicate(alloc)?;
        self.lines.push(line)?;
        Ok(())
    }

    /// Adds these instructions.
    pub(crate) fn push_all(&mut self, alloc: Global, lines: &[Line]) -> Result<(), AllocError>
        ensures { OnOk result (self.new ≡ record self.old { lines = self.old.lines ++ lines.now }) }
    {
        for line in lines {
            self.push(alloc, line)?;
        }
        Ok(())
    }

    /// The block with this terminator.
    pub(crate) fn ended(self, end: Terminator) -> Block
        ensures { result ≡ ended self end }
    {
        let Open {
            number,
            phis,
            lines,
        } = self;
        Block {
            number,
            phis,
            lines,
            end,
        }
    }
}
