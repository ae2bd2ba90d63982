//! Blocks and functions as the machine runs them (LangRef, "Functions").
ghost use Rattle.std.specs.Prelude.{◌≡◌, ◌+◌, ◌<◌, ◌^◌, All, IfOk, List, length};
ghost use Rattle.std.specs.List.{AllZip};
ghost use Rattle.ir_tree.specs.declared.block.Block.{Block as MeantBlock};
ghost use Rattle.ir_interp.specs.Code.{counted_before, locals_of};
ghost use Rattle.machine_code.specs.Blocks.{AreBlocksFor, ArePositions, HasSoundInstrs, IsBlockFor, IsFunctionFor, IsLineFor, IsSoundBlock};
ghost use Rattle.machine_code.specs.Tasks.{IsSoundInstr};

use crate::addresses::Addresses;
use crate::positions::Positions;
use ir_interp::{Block, CodeLine, Function};
use ir_tree::Param;
use std::alloc::{AllocError, Global};

/// A sum of counts; one past 64 bits is refused as memory.
fn counted(count: u64, more: usize) -> Result<u64, AllocError>
    ensures { IfOk result (λ sum. sum ≡ count + more) }
{
    match count.checked_add(more as u64) {
        Some(sum) => Ok(sum),
        None => Err(AllocError),
    }
}

/// The number of phis, instructions and terminators before the first line of a block, before which so many stand: such as
/// leaves room to count its lines and its terminator.
fn first_line(before: u64, phis: usize, lines: usize) -> Result<u64, AllocError>
    ensures place { IfOk result (λ first. first ≡ before + phis) }
    ensures short { IfOk result (λ first. first + lines + 1 < 2 ^ 64) }
{
    let first = counted(before, phis)?;
    let behind = counted(first, lines)?;
    match behind.checked_add(1) {
        Some(_) => Ok(first),
        None => Err(AllocError),
    }
}

/// The blocks of a function, and how many phis, instructions and terminators stand in them.
#[derive(Drop)]
struct MadeBlocks<'i> {
    blocks: Vec<Block<'i>>,
    count: u64,
}

/// The registers of parameters.
fn param_registers(alloc: Global, params: &[Param]) -> Result<Vec<u32>, AllocError>
    ensures { IfOk result (λ all. all.items ≡ locals_of params.now) }
{
    let mut all = Vec::with_capacity(alloc, params.len())?;
    for param in params {
        all.push(param.local)?;
    }
    Ok(all)
}

impl<'a> Addresses<'a> {
    /// A line of a block.
    fn line<'i>(&self, alloc: Global, line: &'i ir_tree::Line) -> Result<CodeLine<'i>, AllocError>
        requires { IsSoundInstr line.now.instr }
        ensures { IfOk result (λ made. IsLineFor self.now line.entry.now made) }
    {
        let task = self.task(alloc, &line.instr)?;
        Ok(CodeLine {
            local: line.local,
            task,
        })
    }

    /// The lines of a block.
    fn lines<'i>(
        &self,
        alloc: Global,
        lines: &'i [ir_tree::Line],
    ) -> Result<Vec<CodeLine<'i>>, AllocError>
        requires { All (λ l. IsSoundInstr l.instr) lines.now }
        ensures { IfOk result (λ all. AllZip (IsLineFor self.now) lines.entry.now all.items) }
    {
        let mut all = Vec::with_capacity(alloc, lines.len())?;
        for line in lines {
            let made = self.line(alloc, line)?;
            all.push(made)?;
        }
        Ok(all)
    }

    /// A block before which so many phis, instructions and terminators stand.
    fn block<'i>(
        &self,
        alloc: Global,
        positions: &Positions,
        before: u64,
        block: &'i ir_tree::Block,
    ) -> Result<Block<'i>, AllocError>
        requires { IsSoundBlock block.now }
        ensures { IfOk result (λ made. (blocks : List MeantBlock) → ArePositions blocks positions.now → IsBlockFor self.now blocks before block.entry.now made) }
    {
        let first = first_line(before, block.phis.len(), block.lines.len())?;
        let phis = self.phis(alloc, block.phis.as_slice())?;
        let lines = self.lines(alloc, block.lines.as_slice())?;
        let exit = self.exit(alloc, positions, &block.end)?;
        Ok(Block {
            number: block.number,
            before: first,
            phis,
            lines,
            exit,
        })
    }

    /// The blocks of a function that stand at these positions, in the order of the text, by one pass.
    fn blocks_at<'i>(
        &self,
        alloc: Global,
        positions: &Positions,
        blocks: &'i [ir_tree::Block],
    ) -> Result<MadeBlocks<'i>, AllocError>
        requires sound { All IsSoundBlock blocks.now }
        requires placed { ArePositions blocks.now positions.now }
        ensures long { IfOk result (λ made. length made.blocks.items ≡ length blocks.entry.now) }
        ensures each { IfOk result (λ made. AreBlocksFor self.now blocks.entry.now made.blocks.items) }
        ensures count { IfOk result (λ made. made.count ≡ counted_before blocks.entry.now (length blocks.entry.now)) }
    {
        let mut all = Vec::with_capacity(alloc, blocks.len())?;
        let mut count: u64 = 0;
        for block in blocks {
            let made = self.block(alloc, positions, count, block)?;
            count = made.before + block.lines.len() as u64 + 1;
            all.push(made)?;
        }
        Ok(MadeBlocks { blocks: all, count })
    }

    /// The blocks of a function.
    fn blocks<'i>(
        &self,
        alloc: Global,
        blocks: &'i [ir_tree::Block],
    ) -> Result<MadeBlocks<'i>, AllocError>
        requires { All IsSoundBlock blocks.now }
        ensures long { IfOk result (λ made. length made.blocks.items ≡ length blocks.entry.now) }
        ensures each { IfOk result (λ made. AreBlocksFor self.now blocks.entry.now made.blocks.items) }
        ensures count { IfOk result (λ made. made.count ≡ counted_before blocks.entry.now (length blocks.entry.now)) }
    {
        let positions = Positions::of(alloc, blocks)?;
        self.blocks_at(alloc, &positions, blocks)
    }

    /// A function. There is to be room for a register of each parameter, and of each phi, instruction and terminator.
    pub(crate) fn function<'i>(
        &self,
        alloc: Global,
        function: &'i ir_tree::Function,
    ) -> Result<Function<'i>, AllocError>
        requires { HasSoundInstrs function.now }
        ensures { IfOk result (λ made. IsFunctionFor self.now function.entry.now made) }
    {
        let params = param_registers(alloc, function.params.as_slice())?;
        let tree = function.blocks.as_slice();
        let MadeBlocks { blocks, count } = self.blocks(alloc, tree)?;
        let registers = counted(count, function.params.len())?;
        Ok(Function {
            params,
            registers: registers as usize,
            blocks,
        })
    }
}
