//! Writes operands.
ghost use Rattle.std.specs.Prelude.{◌≡◌, ◌++◌, IfOk};
ghost use Rattle.ir_print.specs.Operands as operands;
ghost use Rattle.ir_print.specs.Wrote.{Wrote};

use crate::token::{COMMA, SPACE, TIGHT, global, local, mark, number, signed, word};
use crate::types::register;
use ir_tree::{Argument, Operand, Reg};
use std::alloc::AllocError;

/// A symbol's address: the bare name at offset 0, else `getelementptr (i8, ptr @name, i64 offset)`.
fn address(lead: &[u8], name: &[u8], offset: u64, out: &mut Vec<u8>) -> Result<(), AllocError>
    ensures { IfOk result (λ _. Wrote (operands.address lead.now name.now offset) out.old.items out.new.items) }
{
    if offset == 0 {
        global(lead, name, out)
    } else {
        word(lead, b"getelementptr (i8, ptr", out)?;
        global(SPACE, name, out)?;
        signed(b", i64 ", 64, offset, out)?;
        mark(TIGHT, b')', out)
    }
}

/// An operand.
pub(crate) fn operand(lead: &[u8], x: &Operand, out: &mut Vec<u8>) -> Result<(), AllocError>
    ensures { IfOk result (λ _. Wrote (operands.operand lead.now x.now) out.old.items out.new.items) }
{
    match x {
        Operand::Local(n) => local(lead, *n, out),
        Operand::Number { width, bits } => number(lead, *width, *bits, out),
        Operand::Null => word(lead, b"null", out),
        Operand::Poison(_) => word(lead, b"poison", out),
        Operand::Symbol { symbol, offset } => address(lead, symbol.name.as_slice(), *offset, out),
    }
}

/// An operand behind its type.
pub(crate) fn typed(lead: &[u8], reg: Reg, x: &Operand, out: &mut Vec<u8>) -> Result<(), AllocError>
    ensures { IfOk result (λ _. Wrote (operands.typed lead.now reg x.now) out.old.items out.new.items) }
{
    register(lead, reg, out)?;
    operand(SPACE, x, out)
}

/// A list that goes on: `, T x, T y`.
pub(crate) fn further_typed(list: &[Argument], out: &mut Vec<u8>) -> Result<(), AllocError>
    ensures { IfOk result (λ _. Wrote (operands.further_typed list.now) out.old.items out.new.items) }
{
    'each: for a in list {
        typed(COMMA, a.reg, &a.operand, out)?;
    }
    Ok(())
}

/// A whole list: `T x, T y`.
pub(crate) fn all_typed(list: &[Argument], out: &mut Vec<u8>) -> Result<(), AllocError>
    ensures { IfOk result (λ _. Wrote (operands.all_typed list.now) out.old.items out.new.items) }
{
    match list {
        [] => Ok(()),
        [first, rest @ ..] => {
            typed(TIGHT, first.reg, &first.operand, out)?;
            further_typed(rest, out)
        }
    }
}
