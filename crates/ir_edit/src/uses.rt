//! One walk over the blocks of a function that finds the uses of locals, in the order of the text.
ghost use Rattle.std.specs.Prelude.{◌≡◌, ◌++◌, List, OnOk, flat_map};
ghost use Rattle.ir_tree.specs.declared.instr.Line.{Line};
ghost use Rattle.ir_tree.specs.declared.instr.Phi.{Phi};
ghost use Rattle.ir_tree.specs.declared.operand.Operand.{Operand};
ghost use Rattle.ir_edit.specs.Uses.{block_uses, blocks_uses, end_uses};

use ir_tree::{Block, Line, Operand, Phi, Terminator};
use std::alloc::AllocError;

/// A kind of use of a local, by the uses that a phi, a line and a terminator have. Crates above say by it what they ask of
/// uses.
pub trait FindUses: Sized {
    /// The uses in a phi.
    ghost of_phi: { Phi → List Self };

    /// The uses in a line.
    ghost of_line: { Line → List Self };

    /// The uses in the operand that a terminator reads.
    ghost of_read: { Operand → List Self };

    /// The uses in a phi, put behind the others.
    fn push_phi(uses: &mut Vec<Self>, phi: &Phi) -> Result<(), AllocError>
        ensures { OnOk result (uses.new.items ≡ uses.old.items ++ of_phi phi.now) };

    /// The uses in a line, put behind the others.
    fn push_line(uses: &mut Vec<Self>, line: &Line) -> Result<(), AllocError>
        ensures { OnOk result (uses.new.items ≡ uses.old.items ++ of_line line.now) };

    /// The uses in the operand that a terminator reads, put behind the others.
    fn push_read(uses: &mut Vec<Self>, operand: &Operand) -> Result<(), AllocError>
        ensures { OnOk result (uses.new.items ≡ uses.old.items ++ of_read operand.now) };
}

fn push_phis<U: FindUses>(uses: &mut Vec<U>, phis: &[Phi]) -> Result<(), AllocError>
    ensures { OnOk result (uses.new.items ≡ uses.old.items ++ flat_map U.of_phi phis.now) }
{
    for phi in phis {
        U::push_phi(uses, phi)?;
    }
    Ok(())
}

fn push_lines<U: FindUses>(uses: &mut Vec<U>, lines: &[Line]) -> Result<(), AllocError>
    ensures { OnOk result (uses.new.items ≡ uses.old.items ++ flat_map U.of_line lines.now) }
{
    for line in lines {
        U::push_line(uses, line)?;
    }
    Ok(())
}

fn push_end<U: FindUses>(uses: &mut Vec<U>, end: &Terminator) -> Result<(), AllocError>
    ensures { OnOk result (uses.new.items ≡ uses.old.items ++ end_uses U.of_read end.now) }
{
    match end {
        Terminator::Return(Some(value)) => U::push_read(uses, &value.operand),
        Terminator::Return(None) => Ok(()),
        Terminator::Jump(_) => Ok(()),
        Terminator::Branch { condition, .. } => U::push_read(uses, condition),
        Terminator::Switch { value, .. } => U::push_read(uses, value),
        Terminator::Unreachable => Ok(()),
    }
}

#[tactic(auto, unfolding(crate::specs::Uses::block_uses))]
fn push_block<U: FindUses>(uses: &mut Vec<U>, block: &Block) -> Result<(), AllocError>
    ensures { OnOk result (uses.new.items ≡ uses.old.items ++ block_uses U.of_phi U.of_line U.of_read block.now) }
{
    push_phis(uses, block.phis.as_slice())?;
    push_lines(uses, block.lines.as_slice())?;
    push_end(uses, &block.end)
}

/// The uses in these blocks, put behind the others.
pub fn push_uses<U: FindUses>(uses: &mut Vec<U>, blocks: &[Block]) -> Result<(), AllocError>
    ensures { OnOk result (uses.new.items ≡ uses.old.items ++ blocks_uses U.of_phi U.of_line U.of_read blocks.now) }
{
    for block in blocks {
        push_block(uses, block)?;
    }
    Ok(())
}
