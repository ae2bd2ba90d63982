//! One walk over a function that changes each number and each operand.
ghost use Rattle.std.specs.Prelude.{◌≡◌, IfOk, map, option_map};
ghost use Rattle.ir_tree.specs.Edited.{line_edited, phi_edited, case_edited, end_edited, block_edited, param_edited, edited};

use crate::edit::Edit;
use crate::instr::instr_edited;
use crate::operands::{argument_edited, edges_edited};
use ir_tree::{Block, Case, Duplicate, Function, Line, Param, Phi, Rows, Terminator};
use std::alloc::{AllocError, Global};

fn local<E: Edit>(edit: &E, local: Option<u32>) -> Result<Option<u32>, AllocError>
    ensures { IfOk result (λ l. l ≡ option_map (E.number_of edit.now) local) }
{
    match local {
        Some(x) => {
            let x = edit.number(x)?;
            Ok(Some(x))
        }
        None => Ok(None),
    }
}

fn line<E: Edit>(alloc: Global, edit: &E, line: &Line) -> Result<Line, AllocError>
    ensures { IfOk result (λ l. l ≡ line_edited (E.number_of edit.now) (E.operand_of edit.now) line.now) }
{
    let local = local(edit, line.local)?;
    let instr = instr_edited(alloc, edit, &line.instr)?;
    Ok(Line { local, instr })
}

fn lines<E: Edit>(alloc: Global, edit: &E, lines: &[Line]) -> Result<Rows<Line>, AllocError>
    ensures { IfOk result (λ rows. rows ≡ map (line_edited (E.number_of edit.now) (E.operand_of edit.now)) lines.now) }
{
    let mut rows = Rows::new(alloc);
    for old in lines {
        rows.push(line(alloc, edit, old)?)?;
    }
    Ok(rows)
}

fn phi<E: Edit>(alloc: Global, edit: &E, phi: &Phi) -> Result<Phi, AllocError>
    ensures { IfOk result (λ p. p ≡ phi_edited (E.number_of edit.now) (E.operand_of edit.now) phi.now) }
{
    let local = edit.number(phi.local)?;
    let incoming = edges_edited(alloc, edit, phi.incoming.as_slice())?;
    Ok(Phi {
        local,
        reg: phi.reg,
        incoming,
    })
}

/// The phis with each number and each operand changed by this edit.
///
/// A number that the edit refuses is answered as want of memory.
pub fn phis_edited<E: Edit>(alloc: Global, edit: &E, phis: &[Phi]) -> Result<Rows<Phi>, AllocError>
    ensures { IfOk result (λ rows. rows ≡ map (phi_edited (E.number_of edit.now) (E.operand_of edit.now)) phis.now) }
{
    let mut rows = Rows::new(alloc);
    for old in phis {
        rows.push(phi(alloc, edit, old)?)?;
    }
    Ok(rows)
}

fn case<E: Edit>(edit: &E, case: &Case) -> Result<Case, AllocError>
    ensures { IfOk result (λ c. c ≡ case_edited (E.number_of edit.now) case.now) }
{
    let target = edit.number(case.target)?;
    Ok(Case {
        reg: case.reg,
        width: case.width,
        bits: case.bits,
        target,
    })
}

fn cases<E: Edit>(alloc: Global, edit: &E, cases: &[Case]) -> Result<Rows<Case>, AllocError>
    ensures { IfOk result (λ rows. rows ≡ map (case_edited (E.number_of edit.now)) cases.now) }
{
    let mut rows = Rows::new(alloc);
    for old in cases {
        rows.push(case(edit, old)?)?;
    }
    Ok(rows)
}

/// The terminator with each number and each operand changed by this edit.
///
/// A number that the edit refuses is answered as want of memory.
pub fn end_edited<E: Edit>(
    alloc: Global,
    edit: &E,
    end: &Terminator,
) -> Result<Terminator, AllocError>
    ensures { IfOk result (λ e. e ≡ end_edited (E.number_of edit.now) (E.operand_of edit.now) end.now) }
{
    match end {
        Terminator::Return(Some(value)) => {
            let value = argument_edited(alloc, edit, value)?;
            Ok(Terminator::Return(Some(value)))
        }
        Terminator::Return(None) => Ok(Terminator::Return(None)),
        Terminator::Jump(target) => {
            let target = edit.number(*target)?;
            Ok(Terminator::Jump(target))
        }
        Terminator::Branch {
            condition,
            if_true,
            if_false,
        } => {
            let if_true = edit.number(*if_true)?;
            let if_false = edit.number(*if_false)?;
            let condition = edit.operand(alloc, condition)?;
            Ok(Terminator::Branch {
                condition,
                if_true,
                if_false,
            })
        }
        Terminator::Switch {
            width,
            value,
            default,
            cases: old,
        } => {
            let default = edit.number(*default)?;
            let value = edit.operand(alloc, value)?;
            let cases = cases(alloc, edit, old.as_slice())?;
            Ok(Terminator::Switch {
                width: *width,
                value,
                default,
                cases,
            })
        }
        Terminator::Unreachable => Ok(Terminator::Unreachable),
    }
}

/// The lines and the terminator of a block.
fn body<E: Edit>(
    alloc: Global,
    edit: &E,
    block: &Block,
) -> Result<(Rows<Line>, Terminator), AllocError>
    ensures lines { IfOk result (λ both. both.0 ≡ map (line_edited (E.number_of edit.now) (E.operand_of edit.now)) block.now.lines) }
    ensures end { IfOk result (λ both. both.1 ≡ end_edited (E.number_of edit.now) (E.operand_of edit.now) block.now.end) }
{
    let lines = lines(alloc, edit, block.lines.as_slice())?;
    let end = end_edited(alloc, edit, &block.end)?;
    Ok((lines, end))
}

fn block<E: Edit>(alloc: Global, edit: &E, block: &Block) -> Result<Block, AllocError>
    ensures { IfOk result (λ b. b ≡ block_edited (E.number_of edit.now) (E.operand_of edit.now) block.now) }
{
    let number = edit.number(block.number)?;
    let phis = phis_edited(alloc, edit, block.phis.as_slice())?;
    let (lines, end) = body(alloc, edit, block)?;
    Ok(Block {
        number,
        phis,
        lines,
        end,
    })
}

fn blocks<E: Edit>(alloc: Global, edit: &E, blocks: &[Block]) -> Result<Rows<Block>, AllocError>
    ensures { IfOk result (λ rows. rows ≡ map (block_edited (E.number_of edit.now) (E.operand_of edit.now)) blocks.now) }
{
    let mut rows = Rows::new(alloc);
    for old in blocks {
        rows.push(block(alloc, edit, old)?)?;
    }
    Ok(rows)
}

fn param<E: Edit>(edit: &E, param: &Param) -> Result<Param, AllocError>
    ensures { IfOk result (λ p. p ≡ param_edited (E.number_of edit.now) param.now) }
{
    let local = edit.number(param.local)?;
    Ok(Param {
        local,
        reg: param.reg,
    })
}

fn params<E: Edit>(alloc: Global, edit: &E, params: &[Param]) -> Result<Rows<Param>, AllocError>
    ensures { IfOk result (λ rows. rows ≡ map (param_edited (E.number_of edit.now)) params.now) }
{
    let mut rows = Rows::new(alloc);
    for old in params {
        rows.push(param(edit, old)?)?;
    }
    Ok(rows)
}

/// The function with each number and each operand changed by this edit; its symbol and all else stay.
///
/// A number that the edit refuses is answered as want of memory.
pub fn edited<E: Edit>(alloc: Global, edit: &E, f: &Function) -> Result<Function, AllocError>
    ensures { IfOk result (λ g. g ≡ edited (E.number_of edit.now) (E.operand_of edit.now) f.now) }
{
    let symbol = f.symbol.duplicate(alloc)?;
    let params = params(alloc, edit, f.params.as_slice())?;
    let blocks = blocks(alloc, edit, f.blocks.as_slice())?;
    Ok(Function {
        symbol,
        linkage: f.linkage,
        result: f.result,
        params,
        noinline: f.noinline,
        optnone: f.optnone,
        blocks,
    })
}
