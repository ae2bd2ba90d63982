//! Shapes and constant addresses of instructions and blocks (LangRef, "Instruction Reference").
ghost use Rattle.std.specs.Prelude.{◌≡◌, ◌++◌};
ghost use Rattle.ir_parse_names.specs.Marks as marked;
ghost use Rattle.ir_parse_names.specs.Resolving.{ResolvesTo};
ghost use Rattle.ir_parse_names.specs.Stages as stages;
ghost use Rattle.ir_parse_sizes.specs.Reserved.{reserved};

use crate::limits::{operand_within, shape_within};
use crate::sizes::Sizes;
use ir_parse_names::ResolveError;
use ir_parse_parts::{Argument, Block, Incoming, Instr, Operand, Terminator, Typed, WrittenLine};
use std::alloc::Global;

#[tactic(auto, using(crate::proofs::Within::behind))]
fn both_within<'t>(
    left: &'t Operand,
    right: &'t Operand,
    alloc: Global,
    types: &Sizes<'_, 't>,
) -> Result<(), ResolveError>
    ensures { ResolvesTo (λ u. u) result (stages.marks_within types.now (marked.both left.now right.now)) }
{
    operand_within(left, alloc, types)?;
    operand_within(right, alloc, types)
}

#[tactic(auto, using(crate::proofs::Within::behind))]
fn entries_within<'t>(
    incoming: &'t [Incoming],
    alloc: Global,
    types: &Sizes<'_, 't>,
) -> Result<(), ResolveError>
    ensures { ResolvesTo (λ u. u) result (stages.marks_within types.now (marked.all (λ i. marked.operand_marks i.value) incoming.now)) }
{
    'each: for entry in incoming {
        operand_within(&entry.value, alloc, types)?;
    }
    Ok(())
}

#[tactic(auto, using(crate::proofs::Within::behind))]
fn arguments_within<'t>(
    given: &'t [Argument],
    alloc: Global,
    types: &Sizes<'_, 't>,
) -> Result<(), ResolveError>
    ensures { ResolvesTo (λ u. u) result (stages.marks_within types.now (marked.all (λ a. marked.operand_marks a.operand) given.now)) }
{
    'each: for argument in given {
        operand_within(&argument.operand, alloc, types)?;
    }
    Ok(())
}

/// The shape of an `alloca` with its count.
#[tactic(auto, using(crate::proofs::Within::reserved_passes))]
fn reserved_within<'t>(
    instr: &'t Instr,
    alloc: Global,
    types: &Sizes<'_, 't>,
) -> Result<(), ResolveError>
    ensures { ResolvesTo (λ u. u) result (stages.marks_within types.now (reserved instr.now)) }
{
    match instr {
        Instr::Alloca { typed, count, .. } => { types.many_within(alloc, typed, *count) }
        _ => Ok(()),
    }
}

#[tactic(auto, using(crate::proofs::Within::behind))]
fn choice_within<'t>(
    condition: &'t Operand,
    if_true: &'t Operand,
    if_false: &'t Operand,
    alloc: Global,
    types: &Sizes<'_, 't>,
) -> Result<(), ResolveError>
    ensures { ResolvesTo (λ u. u) result (stages.marks_within types.now (marked.operand_marks condition.now ++ marked.both if_true.now if_false.now)) }
{
    operand_within(condition, alloc, types)?;
    both_within(if_true, if_false, alloc, types)
}

#[tactic(auto, using(crate::proofs::Within::behind))]
fn call_within<'t>(
    callee: &'t Operand,
    given: &'t [Argument],
    alloc: Global,
    types: &Sizes<'_, 't>,
) -> Result<(), ResolveError>
    ensures { ResolvesTo (λ u. u) result (stages.marks_within types.now (marked.operand_marks callee.now ++ marked.all (λ a. marked.operand_marks a.operand) given.now)) }
{
    operand_within(callee, alloc, types)?;
    arguments_within(given, alloc, types)
}

/// A `getelementptr`: its shape, the address that it steps from, and its indices.
#[tactic(auto, using(crate::proofs::Within::behind))]
fn stepping_within<'t>(
    typed: &'t Typed,
    base: &'t Operand,
    indices: &'t [Argument],
    alloc: Global,
    types: &Sizes<'_, 't>,
) -> Result<(), ResolveError>
    ensures { ResolvesTo (λ u. u) result (stages.marks_within types.now (marked.typed_marks typed.now ++ (marked.operand_marks base.now ++ marked.all (λ a. marked.operand_marks a.operand) indices.now))) }
{
    shape_within(typed, alloc, types)?;
    call_within(base, indices, alloc, types)
}

fn instr_within<'t>(
    instr: &'t Instr,
    alloc: Global,
    types: &Sizes<'_, 't>,
) -> Result<(), ResolveError>
    ensures { ResolvesTo (λ u. u) result (stages.marks_within types.now (marked.instr_marks instr.now)) }
{
    match instr {
        Instr::Binary { left, right, .. } | Instr::Icmp { left, right, .. } => {
            both_within(left, right, alloc, types)
        }
        Instr::Cast { value, .. } | Instr::Freeze { value, .. } => {
            operand_within(value, alloc, types)
        }
        Instr::Select {
            condition,
            if_true,
            if_false,
        } => choice_within(condition, &if_true.operand, &if_false.operand, alloc, types),
        Instr::Phi { incoming, .. } => entries_within(incoming.as_slice(), alloc, types),
        Instr::Alloca { .. } => reserved_within(instr, alloc, types),
        Instr::Load { address, .. } => operand_within(address, alloc, types),
        Instr::Store { value, address, .. } => both_within(value, address, alloc, types),
        Instr::Address {
            typed,
            base,
            indices,
            ..
        } => stepping_within(typed, base, indices.as_slice(), alloc, types),
        Instr::Call {
            callee,
            arguments: given,
            ..
        } => call_within(callee, given.as_slice(), alloc, types),
    }
}

#[tactic(auto, using(crate::proofs::Within::behind))]
fn lines_within<'t>(
    rows: &'t [WrittenLine],
    alloc: Global,
    types: &Sizes<'_, 't>,
) -> Result<(), ResolveError>
    ensures { ResolvesTo (λ u. u) result (stages.marks_within types.now (marked.all (λ l. marked.instr_marks l.instr) rows.now)) }
{
    'each: for line in rows {
        instr_within(&line.instr, alloc, types)?;
    }
    Ok(())
}

fn end_within<'t>(
    end: &'t Terminator,
    alloc: Global,
    types: &Sizes<'_, 't>,
) -> Result<(), ResolveError>
    ensures { ResolvesTo (λ u. u) result (stages.marks_within types.now (marked.end_marks end.now)) }
{
    match end {
        Terminator::Return(Some(argument)) => operand_within(&argument.operand, alloc, types),
        Terminator::Branch { condition, .. } => operand_within(condition, alloc, types),
        Terminator::Switch { value, .. } => operand_within(value, alloc, types),
        Terminator::Return(None) | Terminator::Jump(_) | Terminator::Unreachable => Ok(()),
    }
}

#[tactic(auto, using(crate::proofs::Within::behind))]
fn block_within<'t>(
    block: &'t Block,
    alloc: Global,
    types: &Sizes<'_, 't>,
) -> Result<(), ResolveError>
    ensures { ResolvesTo (λ u. u) result (stages.marks_within types.now (marked.block_marks block.now)) }
{
    lines_within(block.lines.as_slice(), alloc, types)?;
    end_within(&block.end, alloc, types)
}

/// The shapes and constant addresses of the blocks of a function.
#[tactic(auto, using(crate::proofs::Within::behind))]
pub fn blocks_within<'t>(
    rows: &'t [Block],
    alloc: Global,
    types: &Sizes<'_, 't>,
) -> Result<(), ResolveError>
    ensures { ResolvesTo (λ u. u) result (stages.marks_within types.now (marked.all marked.block_marks rows.now)) }
{
    'each: for block in rows {
        block_within(block, alloc, types)?;
    }
    Ok(())
}
