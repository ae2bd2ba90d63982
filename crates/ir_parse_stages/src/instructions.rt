//! The marks of instructions and blocks (LangRef, "Instruction Reference").
ghost use Rattle.std.specs.Prelude.{◌≡◌, ◌++◌, ◌∷◌, OnOk};
ghost use Rattle.ir_parse_names.specs.Marks as marked;

use crate::mark::{Mark, Marks};
use crate::uses::{level_uses, typed_marks, uses};
use ir_parse_parts::{Argument, Block, Incoming, Instr, Operand, Terminator, Typed, WrittenLine};
use std::alloc::AllocError;

/// A global that an operand names, or the constant address that it is.
#[tactic(auto, using(crate::proofs::Gathering::joined))]
pub fn operand_marks<'t>(operand: &'t Operand, marks: &mut Marks<'t>) -> Result<(), AllocError>
    ensures { OnOk result (marks.new ≡ marks.old ++ marked.operand_marks operand.now) }
{
    match operand {
        Operand::Global(name) => marks.push(Mark::Symbol(name)),
        Operand::Address(address) => {
            let steps = address.steps();
            marks.push(Mark::Address(steps))?;
            level_uses(steps.levels.as_slice(), marks)
        }
        _ => Ok(()),
    }
}

#[tactic(auto, using(crate::proofs::Gathering::joined))]
fn both<'t>(left: &'t Operand, right: &'t Operand, marks: &mut Marks<'t>) -> Result<(), AllocError>
    ensures { OnOk result (marks.new ≡ marks.old ++ marked.both left.now right.now) }
{
    operand_marks(left, marks)?;
    operand_marks(right, marks)
}

fn entries<'t>(incoming: &'t [Incoming], marks: &mut Marks<'t>) -> Result<(), AllocError>
    ensures { OnOk result (marks.new ≡ marks.old ++ marked.all (λ i. marked.operand_marks i.value) incoming.now) }
{
    'each: for entry in incoming {
        operand_marks(&entry.value, marks)?;
    }
    Ok(())
}

fn arguments<'t>(given: &'t [Argument], marks: &mut Marks<'t>) -> Result<(), AllocError>
    ensures { OnOk result (marks.new ≡ marks.old ++ marked.all (λ a. marked.operand_marks a.operand) given.now) }
{
    'each: for argument in given {
        operand_marks(&argument.operand, marks)?;
    }
    Ok(())
}

#[tactic(auto, using(crate::proofs::Gathering::joined))]
fn choice<'t>(
    condition: &'t Operand,
    if_true: &'t Operand,
    if_false: &'t Operand,
    marks: &mut Marks<'t>,
) -> Result<(), AllocError>
    ensures { OnOk result (marks.new ≡ marks.old ++ (marked.operand_marks condition.now ++ marked.both if_true.now if_false.now)) }
{
    operand_marks(condition, marks)?;
    both(if_true, if_false, marks)
}

/// The shape of an `alloca` with its count, and the type names in it.
#[tactic(auto, using(crate::proofs::Gathering::joined))]
fn reserved<'t>(typed: &'t Typed, count: u64, marks: &mut Marks<'t>) -> Result<(), AllocError>
    ensures { OnOk result (marks.new ≡ marks.old ++ marked.many typed.now count ∷ marked.uses typed.now.shape) }
{
    marks.push(Mark::Alloca(typed, count))?;
    uses(&typed.shape, marks)
}

#[tactic(auto, using(crate::proofs::Gathering::joined))]
fn call<'t>(
    callee: &'t Operand,
    given: &'t [Argument],
    marks: &mut Marks<'t>,
) -> Result<(), AllocError>
    ensures { OnOk result (marks.new ≡ marks.old ++ (marked.operand_marks callee.now ++ marked.all (λ a. marked.operand_marks a.operand) given.now)) }
{
    operand_marks(callee, marks)?;
    arguments(given, marks)
}

/// A `getelementptr`: its shape, the address that it steps from, and its indices.
#[tactic(auto, using(crate::proofs::Gathering::joined))]
fn stepping<'t>(
    typed: &'t Typed,
    base: &'t Operand,
    indices: &'t [Argument],
    marks: &mut Marks<'t>,
) -> Result<(), AllocError>
    ensures { OnOk result (marks.new ≡ marks.old ++ (marked.typed_marks typed.now ++ (marked.operand_marks base.now ++ marked.all (λ a. marked.operand_marks a.operand) indices.now))) }
{
    typed_marks(typed, marks)?;
    call(base, indices, marks)
}

/// The marks of an instruction.
fn instr_marks<'t>(instr: &'t Instr, marks: &mut Marks<'t>) -> Result<(), AllocError>
    ensures { OnOk result (marks.new ≡ marks.old ++ marked.instr_marks instr.now) }
{
    match instr {
        Instr::Binary { left, right, .. } | Instr::Icmp { left, right, .. } => {
            both(left, right, marks)
        }
        Instr::Cast { value, .. } | Instr::Freeze { value, .. } => operand_marks(value, marks),
        Instr::Select {
            condition,
            if_true,
            if_false,
        } => choice(condition, &if_true.operand, &if_false.operand, marks),
        Instr::Phi { incoming, .. } => entries(incoming.as_slice(), marks),
        Instr::Alloca { typed, count, .. } => reserved(typed, *count, marks),
        Instr::Load { address, .. } => operand_marks(address, marks),
        Instr::Store { value, address, .. } => both(value, address, marks),
        Instr::Address {
            typed,
            base,
            indices,
            ..
        } => stepping(typed, base, indices.as_slice(), marks),
        Instr::Call {
            callee,
            arguments: given,
            ..
        } => call(callee, given.as_slice(), marks),
    }
}

fn lines<'t>(rows: &'t [WrittenLine], marks: &mut Marks<'t>) -> Result<(), AllocError>
    ensures { OnOk result (marks.new ≡ marks.old ++ marked.all (λ l. marked.instr_marks l.instr) rows.now) }
{
    'each: for line in rows {
        instr_marks(&line.instr, marks)?;
    }
    Ok(())
}

fn end_marks<'t>(end: &'t Terminator, marks: &mut Marks<'t>) -> Result<(), AllocError>
    ensures { OnOk result (marks.new ≡ marks.old ++ marked.end_marks end.now) }
{
    match end {
        Terminator::Return(Some(argument)) => operand_marks(&argument.operand, marks),
        Terminator::Branch { condition, .. } => operand_marks(condition, marks),
        Terminator::Switch { value, .. } => operand_marks(value, marks),
        Terminator::Return(None) | Terminator::Jump(_) | Terminator::Unreachable => Ok(()),
    }
}

#[tactic(auto, using(crate::proofs::Gathering::joined))]
fn block_marks<'t>(block: &'t Block, marks: &mut Marks<'t>) -> Result<(), AllocError>
    ensures { OnOk result (marks.new ≡ marks.old ++ marked.block_marks block.now) }
{
    lines(block.lines.as_slice(), marks)?;
    end_marks(&block.end, marks)
}

/// The marks of the blocks of a function.
pub fn blocks<'t>(rows: &'t [Block], marks: &mut Marks<'t>) -> Result<(), AllocError>
    ensures { OnOk result (marks.new ≡ marks.old ++ marked.all marked.block_marks rows.now) }
{
    'each: for block in rows {
        block_marks(block, marks)?;
    }
    Ok(())
}
