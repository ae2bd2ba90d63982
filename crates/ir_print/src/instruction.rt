//! Writes instructions.
ghost use Rattle.std.specs.Prelude.{◌≡◌, ◌++◌, ◌∷◌, [], IfOk};
ghost use Rattle.ir_tree.specs.declared.instr.Instr.TheVariants as instrs;
ghost use Rattle.ir_print.specs.Tokens as tokens;
ghost use Rattle.ir_print.specs.Instructions as instructions;
ghost use Rattle.ir_print.specs.Wrote.{Wrote};

use crate::operand::{all_typed, further_typed, operand, typed};
use crate::operators::{condition, conversion, opcode};
use crate::token::{COMMA, INDENT, SPACE, TIGHT, local, mark, natural, optional, width, word};
use crate::types::{register, result_type, shape};
use ir_tree::{
    Argument, BinaryOp, CastOp, Flags, Incoming, Instr, Line, Operand, Predicate, Reg, Shape,
};
use std::alloc::AllocError;

/// `nuw`, `nsw` and `exact`, where they are set.
fn put_flags(flags: Flags, out: &mut Vec<u8>) -> Result<(), AllocError>
    ensures { IfOk result (λ _. Wrote (instructions.flags flags) out.old.items out.new.items) }
{
    optional(b"nuw", flags.nuw, out)?;
    optional(b"nsw", flags.nsw, out)?;
    optional(b"exact", flags.exact, out)
}

/// `, ptr x`.
fn pointer_to(x: &Operand, out: &mut Vec<u8>) -> Result<(), AllocError>
    ensures { IfOk result (λ _. Wrote (tokens.comma ++ instructions.pointer_to x.now) out.old.items out.new.items) }
{
    word(COMMA, b"ptr", out)?;
    operand(SPACE, x, out)
}

/// `, align N`.
pub(crate) fn aligned(n: u64, out: &mut Vec<u8>) -> Result<(), AllocError>
    ensures { IfOk result (λ _. Wrote (instructions.aligned n) out.old.items out.new.items) }
{
    natural(b", align ", n, out)
}

/// `x, y`.
fn both(x: &Operand, y: &Operand, out: &mut Vec<u8>) -> Result<(), AllocError>
    ensures { IfOk result (λ _. Wrote (instructions.both x.now y.now) out.old.items out.new.items) }
{
    operand(SPACE, x, out)?;
    mark(TIGHT, b',', out)?;
    operand(SPACE, y, out)
}

fn binary(
    lead: &[u8],
    op: BinaryOp,
    flags: Flags,
    w: u8,
    x: &Operand,
    y: &Operand,
    out: &mut Vec<u8>,
) -> Result<(), AllocError>
    ensures { IfOk result (λ _. Wrote (instructions.instruction lead.now (instrs.Binary op flags w x.now y.now)) out.old.items out.new.items) }
{
    word(lead, opcode(op), out)?;
    put_flags(flags, out)?;
    width(SPACE, w, out)?;
    both(x, y, out)
}

fn icmp(
    lead: &[u8],
    predicate: Predicate,
    reg: Reg,
    x: &Operand,
    y: &Operand,
    out: &mut Vec<u8>,
) -> Result<(), AllocError>
    ensures { IfOk result (λ _. Wrote (instructions.instruction lead.now (instrs.Icmp predicate reg x.now y.now)) out.old.items out.new.items) }
{
    word(lead, b"icmp", out)?;
    word(SPACE, condition(predicate), out)?;
    register(SPACE, reg, out)?;
    both(x, y, out)
}

fn cast(
    lead: &[u8],
    op: CastOp,
    from: Reg,
    x: &Operand,
    to: Reg,
    out: &mut Vec<u8>,
) -> Result<(), AllocError>
    ensures { IfOk result (λ _. Wrote (instructions.instruction lead.now (instrs.Cast op from x.now to)) out.old.items out.new.items) }
{
    word(lead, conversion(op), out)?;
    typed(SPACE, from, x, out)?;
    register(b" to ", to, out)
}

fn select(
    lead: &[u8],
    condition: &Operand,
    a: &Argument,
    b: &Argument,
    out: &mut Vec<u8>,
) -> Result<(), AllocError>
    ensures { IfOk result (λ _. Wrote (instructions.instruction lead.now (instrs.Select condition.now a.now b.now)) out.old.items out.new.items) }
{
    word(lead, b"select i1", out)?;
    operand(SPACE, condition, out)?;
    typed(COMMA, a.reg, &a.operand, out)?;
    typed(COMMA, b.reg, &b.operand, out)
}

fn freeze(lead: &[u8], reg: Reg, x: &Operand, out: &mut Vec<u8>) -> Result<(), AllocError>
    ensures { IfOk result (λ _. Wrote (instructions.instruction lead.now (instrs.Freeze reg x.now)) out.old.items out.new.items) }
{
    word(lead, b"freeze", out)?;
    typed(SPACE, reg, x, out)
}

fn alloca(lead: &[u8], of: &Shape, align: u64, out: &mut Vec<u8>) -> Result<(), AllocError>
    ensures { IfOk result (λ _. Wrote (instructions.instruction lead.now (instrs.Alloca of.now align)) out.old.items out.new.items) }
{
    word(lead, b"alloca", out)?;
    shape(SPACE, of, out)?;
    aligned(align, out)
}

fn load(
    lead: &[u8],
    reg: Reg,
    address: &Operand,
    align: u64,
    out: &mut Vec<u8>,
) -> Result<(), AllocError>
    ensures { IfOk result (λ _. Wrote (instructions.instruction lead.now (instrs.Load reg address.now align)) out.old.items out.new.items) }
{
    word(lead, b"load", out)?;
    register(SPACE, reg, out)?;
    pointer_to(address, out)?;
    aligned(align, out)
}

fn store(
    lead: &[u8],
    reg: Reg,
    x: &Operand,
    address: &Operand,
    align: u64,
    out: &mut Vec<u8>,
) -> Result<(), AllocError>
    ensures { IfOk result (λ _. Wrote (instructions.instruction lead.now (instrs.Store reg x.now address.now align)) out.old.items out.new.items) }
{
    word(lead, b"store", out)?;
    typed(SPACE, reg, x, out)?;
    pointer_to(address, out)?;
    aligned(align, out)
}

fn address(
    lead: &[u8],
    inbounds: bool,
    of: &Shape,
    base: &Operand,
    indices: &[Argument],
    out: &mut Vec<u8>,
) -> Result<(), AllocError>
    ensures { IfOk result (λ _. Wrote (instructions.instruction lead.now (instrs.Address inbounds of.now base.now indices.now)) out.old.items out.new.items) }
{
    word(lead, b"getelementptr", out)?;
    optional(b"inbounds", inbounds, out)?;
    shape(SPACE, of, out)?;
    pointer_to(base, out)?;
    further_typed(indices, out)
}

fn call(
    lead: &[u8],
    answer: Option<Reg>,
    callee: &Operand,
    arguments: &[Argument],
    out: &mut Vec<u8>,
) -> Result<(), AllocError>
    ensures { IfOk result (λ _. Wrote (instructions.instruction lead.now (instrs.Call answer callee.now arguments.now)) out.old.items out.new.items) }
{
    word(lead, b"call", out)?;
    result_type(answer, out)?;
    operand(SPACE, callee, out)?;
    mark(TIGHT, b'(', out)?;
    all_typed(arguments, out)?;
    mark(TIGHT, b')', out)
}

/// `[ x, %b ]`.
fn put_incoming(i: &Incoming, out: &mut Vec<u8>) -> Result<(), AllocError>
    ensures { IfOk result (λ _. Wrote (instructions.incoming i.now) out.old.items out.new.items) }
{
    mark(SPACE, b'[', out)?;
    operand(SPACE, &i.value, out)?;
    local(COMMA, i.from, out)?;
    mark(SPACE, b']', out)
}

fn all_incoming(list: &[Incoming], out: &mut Vec<u8>) -> Result<(), AllocError>
    ensures { IfOk result (λ _. Wrote (instructions.all_incoming list.now) out.old.items out.new.items) }
{
    match list {
        [] => Ok(()),
        [first, rest @ ..] => {
            put_incoming(first, out)?;
            'each: for i in rest {
                mark(TIGHT, b',', out)?;
                put_incoming(i, out)?;
            }
            Ok(())
        }
    }
}

/// A phi, without the local that takes its result.
pub(crate) fn phi(
    lead: &[u8],
    reg: Reg,
    edges: &[Incoming],
    out: &mut Vec<u8>,
) -> Result<(), AllocError>
    ensures { IfOk result (λ _. Wrote (instructions.phi lead.now reg edges.now) out.old.items out.new.items) }
{
    word(lead, b"phi", out)?;
    register(SPACE, reg, out)?;
    all_incoming(edges, out)
}

/// An instruction, without the local that takes its result.
fn put_instruction(lead: &[u8], instr: &Instr, out: &mut Vec<u8>) -> Result<(), AllocError>
    ensures { IfOk result (λ _. Wrote (instructions.instruction lead.now instr.now) out.old.items out.new.items) }
{
    match instr {
        Instr::Binary {
            op,
            flags,
            width,
            left,
            right,
        } => binary(lead, *op, *flags, *width, left, right, out),
        Instr::Icmp {
            predicate,
            reg,
            left,
            right,
        } => icmp(lead, *predicate, *reg, left, right, out),
        Instr::Cast {
            op,
            from,
            value,
            to,
        } => cast(lead, *op, *from, value, *to, out),
        Instr::Select {
            condition,
            if_true,
            if_false,
        } => select(lead, condition, if_true, if_false, out),
        Instr::Freeze { reg, value } => freeze(lead, *reg, value, out),
        Instr::Alloca { shape, align } => alloca(lead, shape, *align, out),
        Instr::Load {
            reg,
            address,
            align,
        } => load(lead, *reg, address, *align, out),
        Instr::Store {
            reg,
            value,
            address,
            align,
        } => store(lead, *reg, value, address, *align, out),
        Instr::Address {
            inbounds,
            shape,
            base,
            indices,
        } => address(lead, *inbounds, shape, base, indices.as_slice(), out),
        Instr::Call {
            result,
            callee,
            arguments,
        } => call(lead, *result, callee, arguments.as_slice(), out),
        Instr::Phi { reg, incoming } => phi(lead, *reg, incoming.as_slice(), out),
    }
}

/// An instruction on a line of its own, with the local that takes its result.
fn line(l: &Line, out: &mut Vec<u8>) -> Result<(), AllocError>
    ensures { IfOk result (λ _. Wrote (instructions.line_of l.now.local l.now.instr) out.old.items out.new.items) }
{
    match l.local {
        None => put_instruction(INDENT, &l.instr, out),
        Some(n) => {
            local(INDENT, n, out)?;
            mark(SPACE, b'=', out)?;
            put_instruction(SPACE, &l.instr, out)
        }
    }
}

/// The instructions of a block but its phis and its terminator.
pub(crate) fn put_lines(list: &[Line], out: &mut Vec<u8>) -> Result<(), AllocError>
    ensures { IfOk result (λ _. Wrote (instructions.lines list.now) out.old.items out.new.items) }
{
    'each: for l in list {
        line(l, out)?;
    }
    Ok(())
}
