//! Writes blocks and terminators.
ghost use Rattle.std.specs.Prelude.{◌≡◌, ◌++◌, IfOk};
ghost use Rattle.ir_tree.specs.declared.block.Terminator.TheVariants as terminators;
ghost use Rattle.ir_print.specs.Blocks as blocks;
ghost use Rattle.ir_print.specs.Wrote.{Wrote};

use crate::instruction::{phi, put_lines};
use crate::operand::{operand, typed};
use crate::token::{INDENT, SPACE, label_line, local, mark, number, width, word};
use crate::types::register;
use ir_tree::{Argument, Block, Case, Operand, Phi, Terminator};
use std::alloc::AllocError;

/// What leads a target that isn't first.
const TO_LABEL: &[u8] = b", label ";

/// `T n, label %b`, for each case.
fn put_cases(list: &[Case], out: &mut Vec<u8>) -> Result<(), AllocError>
    ensures { IfOk result (λ _. Wrote (blocks.cases list.now) out.old.items out.new.items) }
{
    'each: for c in list {
        register(SPACE, c.reg, out)?;
        number(SPACE, c.width, c.bits, out)?;
        local(TO_LABEL, c.target, out)?;
    }
    Ok(())
}

/// `x, label %b`.
fn decided(x: &Operand, b: u32, out: &mut Vec<u8>) -> Result<(), AllocError>
    ensures { IfOk result (λ _. Wrote (blocks.decided x.now b) out.old.items out.new.items) }
{
    operand(SPACE, x, out)?;
    local(TO_LABEL, b, out)
}

fn put_return(a: &Option<Argument>, out: &mut Vec<u8>) -> Result<(), AllocError>
    ensures { IfOk result (λ _. Wrote (blocks.terminator (terminators.Return a.now)) out.old.items out.new.items) }
{
    match a {
        None => word(INDENT, b"ret void", out),
        Some(a) => typed(b"\n  ret ", a.reg, &a.operand, out),
    }
}

fn branch(
    condition: &Operand,
    if_true: u32,
    if_false: u32,
    out: &mut Vec<u8>,
) -> Result<(), AllocError>
    ensures { IfOk result (λ _. Wrote (blocks.terminator (terminators.Branch condition.now if_true if_false)) out.old.items out.new.items) }
{
    word(INDENT, b"br i1", out)?;
    decided(condition, if_true, out)?;
    local(TO_LABEL, if_false, out)
}

fn switch(
    w: u8,
    x: &Operand,
    default: u32,
    cases: &[Case],
    out: &mut Vec<u8>,
) -> Result<(), AllocError>
    ensures { IfOk result (λ _. Wrote (blocks.terminator (terminators.Switch w x.now default cases.now)) out.old.items out.new.items) }
{
    width(b"\n  switch ", w, out)?;
    decided(x, default, out)?;
    mark(SPACE, b'[', out)?;
    put_cases(cases, out)?;
    mark(SPACE, b']', out)
}

fn put_terminator(end: &Terminator, out: &mut Vec<u8>) -> Result<(), AllocError>
    ensures { IfOk result (λ _. Wrote (blocks.terminator end.now) out.old.items out.new.items) }
{
    match end {
        Terminator::Return(a) => put_return(a, out),
        Terminator::Jump(b) => local(b"\n  br label ", *b, out),
        Terminator::Branch {
            condition,
            if_true,
            if_false,
        } => branch(condition, *if_true, *if_false, out),
        Terminator::Switch {
            width,
            value,
            default,
            cases,
        } => switch(*width, value, *default, cases.as_slice(), out),
        Terminator::Unreachable => word(INDENT, b"unreachable", out),
    }
}

/// `%n = phi T [ x, %b ], [ y, %c ]`, for each phi.
fn put_phis(list: &[Phi], out: &mut Vec<u8>) -> Result<(), AllocError>
    ensures { IfOk result (λ _. Wrote (blocks.phis list.now) out.old.items out.new.items) }
{
    'each: for p in list {
        local(INDENT, p.local, out)?;
        phi(b" = ", p.reg, p.incoming.as_slice(), out)?;
    }
    Ok(())
}

/// A block without its label.
fn content(b: &Block, out: &mut Vec<u8>) -> Result<(), AllocError>
    ensures { IfOk result (λ _. Wrote (blocks.content b.now) out.old.items out.new.items) }
{
    put_phis(b.phis.as_slice(), out)?;
    put_lines(b.lines.as_slice(), out)?;
    put_terminator(&b.end, out)
}

/// The blocks of a function, of which the entry has no label.
pub(crate) fn put_blocks(list: &[Block], out: &mut Vec<u8>) -> Result<(), AllocError>
    ensures { IfOk result (λ _. Wrote (blocks.blocks list.now) out.old.items out.new.items) }
{
    match list {
        [] => Ok(()),
        [entry, rest @ ..] => {
            content(entry, out)?;
            'each: for b in rest {
                label_line(b.number, out)?;
                content(b, out)?;
            }
            Ok(())
        }
    }
}
