//! Where the locals and the blocks of a function stand.
ghost use Rattle.std.specs.Prelude.{◌≡◌, ◌∷◌, [], IfOk};
ghost use Rattle.ir_tree.specs.Rules.{result_type};
ghost use Rattle.ir_verify.specs.Definitions.{definitions, param_pairs, phi_pairs, line_pairs, block_pairs, blocks_pairs, numbered, named, Extends};
ghost use Rattle.ir_verify.specs.Tables.{Holds};

use crate::table::Table;
use ir_tree::{Block, Function, Instr, Line, Param, Phi, Reg};
use std::alloc::{AllocError, Global};

/// The block that defines a local, by its place, and the number of its line before which the local is there first.
#[derive(Clone, Copy, Drop)]
pub struct Home {
    pub block: usize,
    pub after: usize,
}

/// The type of a local, which the name of a call without result lacks, and its home, which a parameter lacks.
#[derive(Clone, Copy, Drop)]
pub struct Definition {
    pub reg: Option<Reg>,
    pub home: Option<Home>,
}

/// The type of what an instruction gives.
fn type_of(instr: &Instr) -> Option<Reg>
    ensures { result ≡ result_type instr.now }
{
    match instr {
        Instr::Binary { width, .. } => Some(Reg::Int(*width)),
        Instr::Icmp { .. } => Some(Reg::Int(1)),
        Instr::Cast { to, .. } => Some(*to),
        Instr::Select { if_true, .. } => Some(if_true.reg),
        Instr::Freeze { reg, .. } => Some(*reg),
        Instr::Alloca { .. } => Some(Reg::Ptr),
        Instr::Load { reg, .. } => Some(*reg),
        Instr::Store { .. } => None,
        Instr::Address { .. } => Some(Reg::Ptr),
        Instr::Call { result, .. } => *result,
        Instr::Phi { reg, .. } => Some(*reg),
    }
}

fn put_params(table: &mut Table<Definition>, params: &[Param]) -> Result<(), AllocError>
    ensures { IfOk result (λ _. Extends table.old.entries.items table.new.entries.items (param_pairs params.now)) }
{
    for param in params {
        let definition = Definition {
            reg: Some(param.reg),
            home: None,
        };
        table.put(param.local, definition)?;
    }
    Ok(())
}

fn put_phis(table: &mut Table<Definition>, block: usize, phis: &[Phi]) -> Result<(), AllocError>
    ensures { IfOk result (λ _. Extends table.old.entries.items table.new.entries.items (phi_pairs block phis.now)) }
{
    for phi in phis {
        let definition = Definition {
            reg: Some(phi.reg),
            home: Some(Home { block, after: 0 }),
        };
        table.put(phi.local, definition)?;
    }
    Ok(())
}

fn put_line(
    table: &mut Table<Definition>,
    block: usize,
    after: usize,
    line: &Line,
) -> Result<(), AllocError>
    ensures { IfOk result (λ _. Extends table.old.entries.items table.new.entries.items (named line.now.local (result_type line.now.instr) block after)) }
{
    if let Some(local) = line.local {
        let definition = Definition {
            reg: type_of(&line.instr),
            home: Some(Home { block, after }),
        };
        table.put(local, definition)?;
    }
    Ok(())
}

fn put_lines(table: &mut Table<Definition>, block: usize, lines: &[Line]) -> Result<(), AllocError>
    ensures { IfOk result (λ _. Extends table.old.entries.items table.new.entries.items (line_pairs block 0 lines.now)) }
{
    for place in 0..lines.len() {
        put_line(table, block, place + 1, &lines[place])?;
    }
    Ok(())
}

fn put_block(table: &mut Table<Definition>, place: usize, block: &Block) -> Result<(), AllocError>
    ensures { IfOk result (λ _. Extends table.old.entries.items table.new.entries.items (block_pairs place block.now)) }
{
    put_phis(table, place, block.phis.as_slice())?;
    put_lines(table, place, block.lines.as_slice())?;
    Ok(())
}

fn put_blocks(table: &mut Table<Definition>, blocks: &[Block]) -> Result<(), AllocError>
    ensures { IfOk result (λ _. Extends table.old.entries.items table.new.entries.items (blocks_pairs 0 blocks.now)) }
{
    for place in 0..blocks.len() {
        put_block(table, place, &blocks[place])?;
    }
    Ok(())
}

/// The definition of each local of a function.
pub fn definitions(alloc: Global, function: &Function) -> Result<Table<Definition>, AllocError>
    ensures { IfOk result (λ table. Holds table.entries.items (definitions function.now)) }
{
    let mut table = Table::new(alloc);
    put_params(&mut table, function.params.as_slice())?;
    put_blocks(&mut table, function.blocks.as_slice())?;
    Ok(table)
}

/// The place of each block of a function.
pub fn places(alloc: Global, blocks: &[Block]) -> Result<Table<usize>, AllocError>
    ensures { IfOk result (λ table. Holds table.entries.items (numbered 0 blocks.now)) }
{
    let mut table = Table::new(alloc);
    for place in 0..blocks.len() {
        table.put(blocks[place].number, place)?;
    }
    Ok(table)
}
