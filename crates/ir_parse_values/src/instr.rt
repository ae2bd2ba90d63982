//! Instructions with their names resolved (LangRef, "Instruction Reference").
ghost use Rattle.std.specs.Prelude.{◌≡◌};
ghost use Rattle.ir_parse_names.specs.Bodies.{instr_in, reg_align};
ghost use Rattle.ir_parse_parts.specs.declared.raw.Instr.TheVariants as written;
ghost use Rattle.ir_parse_names.specs.Resolving.{ResolvesTo};

use crate::operand::{argument_in, arguments_in, entries_in, operand_in};
use ir_parse_names::{Locals, ResolveError, Types, align_or, allocated, expanded};
use ir_parse_parts::{Argument, Incoming, Instr as Written, Operand, Typed};
use ir_tree::{BinaryOp, CastOp, Flags, Instr, Predicate, Reg, Rows, align_of};
use std::alloc::Global;

/// The alignment of a scalar.
fn reg_align(reg: Reg) -> u64
    ensures { result ≡ reg_align reg }
{
    match reg {
        Reg::Int(width) => u64::from(width) / 8,
        Reg::Ptr => 8,
    }
}

fn binary_in<'t>(
    alloc: Global,
    types: &Types<'t>,
    locals: &Locals<'t>,
    op: BinaryOp,
    flags: Flags,
    width: u8,
    left: &'t Operand,
    right: &'t Operand,
) -> Result<Instr, ResolveError>
    ensures { ResolvesTo (λ i. i) result (instr_in types.now locals.now (written.Binary op flags width left.now right.now)) }
{
    let left = operand_in(alloc, types, locals, left)?;
    let right = operand_in(alloc, types, locals, right)?;
    Ok(Instr::Binary {
        op,
        flags,
        width,
        left,
        right,
    })
}

fn icmp_in<'t>(
    alloc: Global,
    types: &Types<'t>,
    locals: &Locals<'t>,
    predicate: Predicate,
    reg: Reg,
    left: &'t Operand,
    right: &'t Operand,
) -> Result<Instr, ResolveError>
    ensures { ResolvesTo (λ i. i) result (instr_in types.now locals.now (written.Icmp predicate reg left.now right.now)) }
{
    let left = operand_in(alloc, types, locals, left)?;
    let right = operand_in(alloc, types, locals, right)?;
    Ok(Instr::Icmp {
        predicate,
        reg,
        left,
        right,
    })
}

fn select_in<'t>(
    alloc: Global,
    types: &Types<'t>,
    locals: &Locals<'t>,
    condition: &'t Operand,
    if_true: &'t Argument,
    if_false: &'t Argument,
) -> Result<Instr, ResolveError>
    ensures { ResolvesTo (λ i. i) result (instr_in types.now locals.now (written.Select condition.now if_true.now if_false.now)) }
{
    let condition = operand_in(alloc, types, locals, condition)?;
    let if_true = argument_in(alloc, types, locals, if_true)?;
    let if_false = argument_in(alloc, types, locals, if_false)?;
    Ok(Instr::Select {
        condition,
        if_true,
        if_false,
    })
}

fn alloca_in<'t>(
    alloc: Global,
    types: &Types<'t>,
    locals: &Locals<'t>,
    typed: &'t Typed,
    count: u64,
    align: Option<u64>,
) -> Result<Instr, ResolveError>
    ensures { ResolvesTo (λ i. i) result (instr_in types.now locals.now (written.Alloca typed.now count align)) }
{
    let shape = allocated(alloc, types, typed, count)?;
    let align = align_or(align_of(&shape), align);
    Ok(Instr::Alloca { shape, align })
}

fn load_in<'t>(
    alloc: Global,
    types: &Types<'t>,
    locals: &Locals<'t>,
    reg: Reg,
    address: &'t Operand,
    align: Option<u64>,
) -> Result<Instr, ResolveError>
    ensures { ResolvesTo (λ i. i) result (instr_in types.now locals.now (written.Load reg address.now align)) }
{
    let address = operand_in(alloc, types, locals, address)?;
    let align = align_or(reg_align(reg), align);
    Ok(Instr::Load {
        reg,
        address,
        align,
    })
}

fn store_in<'t>(
    alloc: Global,
    types: &Types<'t>,
    locals: &Locals<'t>,
    reg: Reg,
    value: &'t Operand,
    address: &'t Operand,
    align: Option<u64>,
) -> Result<Instr, ResolveError>
    ensures { ResolvesTo (λ i. i) result (instr_in types.now locals.now (written.Store reg value.now address.now align)) }
{
    let value = operand_in(alloc, types, locals, value)?;
    let address = operand_in(alloc, types, locals, address)?;
    let align = align_or(reg_align(reg), align);
    Ok(Instr::Store {
        reg,
        value,
        address,
        align,
    })
}

fn address_in<'t>(
    alloc: Global,
    types: &Types<'t>,
    locals: &Locals<'t>,
    inbounds: bool,
    typed: &'t Typed,
    base: &'t Operand,
    indices: &'t Rows<Argument>,
) -> Result<Instr, ResolveError>
    ensures { ResolvesTo (λ i. i) result (instr_in types.now locals.now (written.Address inbounds typed.now base.now indices.now)) }
{
    let shape = expanded(alloc, types, typed)?;
    let base = operand_in(alloc, types, locals, base)?;
    let indices = arguments_in(alloc, types, locals, indices.as_slice())?;
    Ok(Instr::Address {
        inbounds,
        shape,
        base,
        indices,
    })
}

fn call_in<'t>(
    alloc: Global,
    types: &Types<'t>,
    locals: &Locals<'t>,
    result_type: Option<Reg>,
    callee: &'t Operand,
    arguments: &'t Rows<Argument>,
) -> Result<Instr, ResolveError>
    ensures { ResolvesTo (λ i. i) result (instr_in types.now locals.now (written.Call result_type callee.now arguments.now)) }
{
    let callee = operand_in(alloc, types, locals, callee)?;
    let arguments = arguments_in(alloc, types, locals, arguments.as_slice())?;
    Ok(Instr::Call {
        result: result_type,
        callee,
        arguments,
    })
}

fn cast_in<'t>(
    alloc: Global,
    types: &Types<'t>,
    locals: &Locals<'t>,
    op: CastOp,
    from: Reg,
    value: &'t Operand,
    to: Reg,
) -> Result<Instr, ResolveError>
    ensures { ResolvesTo (λ i. i) result (instr_in types.now locals.now (written.Cast op from value.now to)) }
{
    let value = operand_in(alloc, types, locals, value)?;
    Ok(Instr::Cast {
        op,
        from,
        value,
        to,
    })
}

fn freeze_in<'t>(
    alloc: Global,
    types: &Types<'t>,
    locals: &Locals<'t>,
    reg: Reg,
    value: &'t Operand,
) -> Result<Instr, ResolveError>
    ensures { ResolvesTo (λ i. i) result (instr_in types.now locals.now (written.Freeze reg value.now)) }
{
    let value = operand_in(alloc, types, locals, value)?;
    Ok(Instr::Freeze { reg, value })
}

fn phi_in<'t>(
    alloc: Global,
    types: &Types<'t>,
    locals: &Locals<'t>,
    reg: Reg,
    incoming: &'t Rows<Incoming>,
) -> Result<Instr, ResolveError>
    ensures { ResolvesTo (λ i. i) result (instr_in types.now locals.now (written.Phi reg incoming.now)) }
{
    let incoming = entries_in(alloc, types, locals, incoming.as_slice())?;
    Ok(Instr::Phi { reg, incoming })
}

/// What an instruction stands for.
pub fn instr_in<'t>(
    alloc: Global,
    types: &Types<'t>,
    locals: &Locals<'t>,
    instr: &'t Written,
) -> Result<Instr, ResolveError>
    ensures { ResolvesTo (λ i. i) result (instr_in types.now locals.now instr.now) }
{
    match instr {
        Written::Binary {
            op,
            flags,
            width,
            left,
            right,
        } => binary_in(alloc, types, locals, *op, *flags, *width, left, right),
        Written::Icmp {
            predicate,
            reg,
            left,
            right,
        } => icmp_in(alloc, types, locals, *predicate, *reg, left, right),
        Written::Cast {
            op,
            from,
            value,
            to,
        } => cast_in(alloc, types, locals, *op, *from, value, *to),
        Written::Select {
            condition,
            if_true,
            if_false,
        } => select_in(alloc, types, locals, condition, if_true, if_false),
        Written::Freeze { reg, value } => freeze_in(alloc, types, locals, *reg, value),
        Written::Phi { reg, incoming } => phi_in(alloc, types, locals, *reg, incoming),
        Written::Alloca {
            typed,
            count,
            align,
        } => alloca_in(alloc, types, locals, typed, *count, *align),
        Written::Load {
            reg,
            address,
            align,
        } => load_in(alloc, types, locals, *reg, address, *align),
        Written::Store {
            reg,
            value,
            address,
            align,
        } => store_in(alloc, types, locals, *reg, value, address, *align),
        Written::Address {
            inbounds,
            typed,
            base,
            indices,
        } => address_in(alloc, types, locals, *inbounds, typed, base, indices),
        Written::Call {
            result,
            callee,
            arguments,
        } => call_in(alloc, types, locals, *result, callee, arguments),
    }
}
