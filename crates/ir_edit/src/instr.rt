//! Instructions with each number and each operand changed.
ghost use Rattle.std.specs.Prelude.{◌≡◌, IfOk, map};
ghost use Rattle.ir_tree.specs.Edited.{argument_edited, incoming_edited, instr_edited};

use crate::edit::Edit;
use crate::operands::{argument_edited, arguments_edited, edges_edited};
use ir_tree::{
    Argument, BinaryOp, CastOp, Duplicate, Flags, Incoming, Instr, Operand, Predicate, Reg, Shape,
};
use std::alloc::{AllocError, Global};

fn binary_edited<E: Edit>(
    alloc: Global,
    edit: &E,
    op: BinaryOp,
    flags: Flags,
    width: u8,
    left: &Operand,
    right: &Operand,
) -> Result<Instr, AllocError>
    ensures { IfOk result (λ i. i ≡ Instr.Binary op flags width (E.operand_of edit.now left.now) (E.operand_of edit.now right.now)) }
{
    let left = edit.operand(alloc, left)?;
    let right = edit.operand(alloc, right)?;
    Ok(Instr::Binary {
        op,
        flags,
        width,
        left,
        right,
    })
}

fn icmp_edited<E: Edit>(
    alloc: Global,
    edit: &E,
    predicate: Predicate,
    reg: Reg,
    left: &Operand,
    right: &Operand,
) -> Result<Instr, AllocError>
    ensures { IfOk result (λ i. i ≡ Instr.Icmp predicate reg (E.operand_of edit.now left.now) (E.operand_of edit.now right.now)) }
{
    let left = edit.operand(alloc, left)?;
    let right = edit.operand(alloc, right)?;
    Ok(Instr::Icmp {
        predicate,
        reg,
        left,
        right,
    })
}

fn cast_edited<E: Edit>(
    alloc: Global,
    edit: &E,
    op: CastOp,
    from: Reg,
    value: &Operand,
    to: Reg,
) -> Result<Instr, AllocError>
    ensures { IfOk result (λ i. i ≡ Instr.Cast op from (E.operand_of edit.now value.now) to) }
{
    let value = edit.operand(alloc, value)?;
    Ok(Instr::Cast {
        op,
        from,
        value,
        to,
    })
}

fn select_edited<E: Edit>(
    alloc: Global,
    edit: &E,
    condition: &Operand,
    if_true: &Argument,
    if_false: &Argument,
) -> Result<Instr, AllocError>
    ensures { IfOk result (λ i. i ≡ Instr.Select (E.operand_of edit.now condition.now) (argument_edited (E.operand_of edit.now) if_true.now) (argument_edited (E.operand_of edit.now) if_false.now)) }
{
    let condition = edit.operand(alloc, condition)?;
    let if_true = argument_edited(alloc, edit, if_true)?;
    let if_false = argument_edited(alloc, edit, if_false)?;
    Ok(Instr::Select {
        condition,
        if_true,
        if_false,
    })
}

fn freeze_edited<E: Edit>(
    alloc: Global,
    edit: &E,
    reg: Reg,
    value: &Operand,
) -> Result<Instr, AllocError>
    ensures { IfOk result (λ i. i ≡ Instr.Freeze reg (E.operand_of edit.now value.now)) }
{
    let value = edit.operand(alloc, value)?;
    Ok(Instr::Freeze { reg, value })
}

fn alloca_edited(alloc: Global, shape: &Shape, align: u64) -> Result<Instr, AllocError>
    ensures { IfOk result (λ i. i ≡ Instr.Alloca shape.now align) }
{
    let shape = shape.duplicate(alloc)?;
    Ok(Instr::Alloca { shape, align })
}

fn load_edited<E: Edit>(
    alloc: Global,
    edit: &E,
    reg: Reg,
    address: &Operand,
    align: u64,
) -> Result<Instr, AllocError>
    ensures { IfOk result (λ i. i ≡ Instr.Load reg (E.operand_of edit.now address.now) align) }
{
    let address = edit.operand(alloc, address)?;
    Ok(Instr::Load {
        reg,
        address,
        align,
    })
}

fn store_edited<E: Edit>(
    alloc: Global,
    edit: &E,
    reg: Reg,
    value: &Operand,
    address: &Operand,
    align: u64,
) -> Result<Instr, AllocError>
    ensures { IfOk result (λ i. i ≡ Instr.Store reg (E.operand_of edit.now value.now) (E.operand_of edit.now address.now) align) }
{
    let value = edit.operand(alloc, value)?;
    let address = edit.operand(alloc, address)?;
    Ok(Instr::Store {
        reg,
        value,
        address,
        align,
    })
}

fn address_edited<E: Edit>(
    alloc: Global,
    edit: &E,
    inbounds: bool,
    shape: &Shape,
    base: &Operand,
    indices: &[Argument],
) -> Result<Instr, AllocError>
    ensures { IfOk result (λ i. i ≡ Instr.Address inbounds shape.now (E.operand_of edit.now base.now) (map (argument_edited (E.operand_of edit.now)) indices.now)) }
{
    let shape = shape.duplicate(alloc)?;
    let base = edit.operand(alloc, base)?;
    let indices = arguments_edited(alloc, edit, indices)?;
    Ok(Instr::Address {
        inbounds,
        shape,
        base,
        indices,
    })
}

fn call_edited<E: Edit>(
    alloc: Global,
    edit: &E,
    answer: Option<Reg>,
    callee: &Operand,
    arguments: &[Argument],
) -> Result<Instr, AllocError>
    ensures { IfOk result (λ i. i ≡ Instr.Call answer (E.operand_of edit.now callee.now) (map (argument_edited (E.operand_of edit.now)) arguments.now)) }
{
    let callee = edit.operand(alloc, callee)?;
    let arguments = arguments_edited(alloc, edit, arguments)?;
    Ok(Instr::Call {
        result: answer,
        callee,
        arguments,
    })
}

fn stray_phi_edited<E: Edit>(
    alloc: Global,
    edit: &E,
    reg: Reg,
    incoming: &[Incoming],
) -> Result<Instr, AllocError>
    ensures { IfOk result (λ i. i ≡ Instr.Phi reg (map (incoming_edited (E.number_of edit.now) (E.operand_of edit.now)) incoming.now)) }
{
    let incoming = edges_edited(alloc, edit, incoming)?;
    Ok(Instr::Phi { reg, incoming })
}

/// The instruction with each operand changed by this edit, and each number of a block from which a value comes.
///
/// A number that the edit refuses is answered as want of memory.
pub fn instr_edited<E: Edit>(alloc: Global, edit: &E, instr: &Instr) -> Result<Instr, AllocError>
    ensures { IfOk result (λ i. i ≡ instr_edited (E.number_of edit.now) (E.operand_of edit.now) instr.now) }
{
    match instr {
        Instr::Binary {
            op,
            flags,
            width,
            left,
            right,
        } => binary_edited(alloc, edit, *op, *flags, *width, left, right),
        Instr::Icmp {
            predicate,
            reg,
            left,
            right,
        } => icmp_edited(alloc, edit, *predicate, *reg, left, right),
        Instr::Cast {
            op,
            from,
            value,
            to,
        } => cast_edited(alloc, edit, *op, *from, value, *to),
        Instr::Select {
            condition,
            if_true,
            if_false,
        } => select_edited(alloc, edit, condition, if_true, if_false),
        Instr::Freeze { reg, value } => freeze_edited(alloc, edit, *reg, value),
        Instr::Alloca { shape, align } => alloca_edited(alloc, shape, *align),
        Instr::Load {
            reg,
            address,
            align,
        } => load_edited(alloc, edit, *reg, address, *align),
        Instr::Store {
            reg,
            value,
            address,
            align,
        } => store_edited(alloc, edit, *reg, value, address, *align),
        Instr::Address {
            inbounds,
            shape,
            base,
            indices,
        } => address_edited(alloc, edit, *inbounds, shape, base, indices.as_slice()),
        Instr::Call {
            result,
            callee,
            arguments,
        } => call_edited(alloc, edit, *result, callee, arguments.as_slice()),
        Instr::Phi { reg, incoming } => stray_phi_edited(alloc, edit, *reg, incoming.as_slice()),
    }
}
