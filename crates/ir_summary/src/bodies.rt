//! The names that a body refers to.
ghost use Rattle.std.specs.Prelude.{◌≡◌, ◌++◌, IfOk, OnOk};
ghost use Rattle.ir_tree.specs.Items.{reads, end_reads, phi_reads, taken_as};
ghost use Rattle.ir_summary.specs.Once.{texts};
ghost use Rattle.ir_summary.specs.References.{all_named, body_names, named};
ghost use Rattle.ir_summary.specs.Walked.{block_names, blocks_names, line_names, lines_names, phis_names, values_named};

use ir_tree::{Argument, Block, Function, Incoming, Instr, Line, Operand, Phi, Terminator};
use std::alloc::{AllocError, Global};

pub(crate) fn push_operand<'a>(
    names: &mut Vec<&'a [u8]>,
    operand: &'a Operand,
) -> Result<(), AllocError>
    ensures { OnOk result (texts names.new.items ≡ texts names.old.items ++ named operand.entry.now) }
{
    if let Operand::Symbol { symbol, .. } = operand {
        names.push(symbol.name.as_slice())?;
    }
    Ok(())
}

fn push_arguments<'a>(
    names: &mut Vec<&'a [u8]>,
    arguments: &'a [Argument],
) -> Result<(), AllocError>
    ensures { OnOk result (texts names.new.items ≡ texts names.old.items ++ all_named arguments.entry.now) }
{
    for argument in arguments {
        push_operand(names, &argument.operand)?;
    }
    Ok(())
}

fn push_incoming<'a>(names: &mut Vec<&'a [u8]>, incoming: &'a [Incoming]) -> Result<(), AllocError>
    ensures { OnOk result (texts names.new.items ≡ texts names.old.items ++ values_named incoming.entry.now) }
{
    for edge in incoming {
        push_operand(names, &edge.value)?;
    }
    Ok(())
}

fn push_instr<'a>(names: &mut Vec<&'a [u8]>, instr: &'a Instr) -> Result<(), AllocError>
    ensures { OnOk result (texts names.new.items ≡ texts names.old.items ++ line_names instr.entry.now) }
{
    match instr {
        Instr::Binary { left, right, .. } | Instr::Icmp { left, right, .. } => {
            push_operand(names, left)?;
            push_operand(names, right)
        }
        Instr::Cast { value, .. } | Instr::Freeze { value, .. } => push_operand(names, value),
        Instr::Select {
            condition,
            if_true,
            if_false,
        } => {
            push_operand(names, condition)?;
            push_operand(names, &if_true.operand)?;
            push_operand(names, &if_false.operand)
        }
        Instr::Alloca { .. } => Ok(()),
        Instr::Load { address, .. } => push_operand(names, address),
        Instr::Store { value, address, .. } => {
            push_operand(names, value)?;
            push_operand(names, address)
        }
        Instr::Address { base, indices, .. } => {
            push_operand(names, base)?;
            push_arguments(names, indices.as_slice())
        }
        Instr::Call {
            callee,
            arguments,
            ..
        } => {
            push_operand(names, callee)?;
            push_arguments(names, arguments.as_slice())
        }
        Instr::Phi { incoming, .. } => push_incoming(names, incoming.as_slice()),
    }
}

fn push_phis<'a>(names: &mut Vec<&'a [u8]>, phis: &'a [Phi]) -> Result<(), AllocError>
    ensures { OnOk result (texts names.new.items ≡ texts names.old.items ++ phis_names phis.entry.now) }
{
    for phi in phis {
        push_incoming(names, phi.incoming.as_slice())?;
    }
    Ok(())
}

fn push_lines<'a>(names: &mut Vec<&'a [u8]>, lines: &'a [Line]) -> Result<(), AllocError>
    ensures { OnOk result (texts names.new.items ≡ texts names.old.items ++ lines_names lines.entry.now) }
{
    for line in lines {
        push_instr(names, &line.instr)?;
    }
    Ok(())
}

fn push_end<'a>(names: &mut Vec<&'a [u8]>, end: &'a Terminator) -> Result<(), AllocError>
    ensures { OnOk result (texts names.new.items ≡ texts names.old.items ++ all_named (end_reads end.entry.now)) }
{
    match end {
        Terminator::Return(Some(value)) => push_operand(names, &value.operand),
        Terminator::Branch { condition, .. } => push_operand(names, condition),
        Terminator::Switch { value, .. } => push_operand(names, value),
        Terminator::Return(None) | Terminator::Jump(_) | Terminator::Unreachable => Ok(()),
    }
}

fn push_block<'a>(names: &mut Vec<&'a [u8]>, block: &'a Block) -> Result<(), AllocError>
    ensures { OnOk result (texts names.new.items ≡ texts names.old.items ++ block_names block.entry.now) }
{
    push_phis(names, block.phis.as_slice())?;
    push_lines(names, block.lines.as_slice())?;
    push_end(names, &block.end)
}

fn push_blocks<'a>(names: &mut Vec<&'a [u8]>, blocks: &'a [Block]) -> Result<(), AllocError>
    ensures { OnOk result (texts names.new.items ≡ texts names.old.items ++ blocks_names blocks.entry.now) }
{
    for block in blocks {
        push_block(names, block)?;
    }
    Ok(())
}

/// All names that a function's body refers to, as often as it does.
pub(crate) fn body_names<'a>(
    alloc: Global,
    function: &'a Function,
) -> Result<Vec<&'a [u8]>, AllocError>
    ensures { IfOk result (λ names. texts names.items ≡ body_names function.entry.now) }
{
    let mut names = Vec::new(alloc);
    push_blocks(&mut names, function.blocks.as_slice())?;
    Ok(names)
}
