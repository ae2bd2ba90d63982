//! Rows of casts, selections and freezes (LLVM Language Reference, "Conversion Operations", "select
//! Instruction", "freeze Instruction").
ghost use Rattle.std.specs.Prelude.{◌≡◌, ◌≤◌, ◌<◌, ◌^◌};
ghost use Rattle.ir_tree.specs.Formed.{IsReg};
ghost use Rattle.ir_meaning.specs.Arithmetic.{cast_number};
ghost use Rattle.ir_meaning.specs.Table.{cast_constant, cast_rule, freeze_rule, select_rule};
ghost use Rattle.fold_rules.specs.Folding.{row_of};

use crate::folded::Folded;
use crate::operands::{is_poison, is_same, number_of};
use crate::rows::when;
use ir_tree::{Argument, CastOp, Operand, Reg};
use lto_bits::{narrow, widen};

/// A number of `from` bits as one of `to` bits. Widths are 1 to 64; an extension to fewer bits, which no
/// sound function has, keeps what the definition keeps.
fn cast_number(op: CastOp, from: u8, to: u8, number: u64) -> u64
    requires some { 1 ≤ from }
    requires within { from ≤ 64 }
    requires any { 1 ≤ to }
    requires most { to ≤ 64 }
    requires below { number < 2 ^ from }
    ensures { result ≡ cast_number op from to number }
{
    match op {
        CastOp::Zext => number,
        CastOp::Sext => narrow(to, widen(true, from, 64, number)),
        CastOp::Trunc => narrow(to, number),
    }
}

/// What a cast of an integer constant gives.
fn cast_constant<'a>(op: CastOp, from: Reg, to: Reg, value: &Operand) -> Option<Folded<'a>>
    requires given { IsReg from }
    requires wanted { IsReg to }
    ensures { row_of result ≡ cast_constant op from to value.now }
{
    match (from, to) {
        (Reg::Int(from), Reg::Int(width)) => {
            let number = number_of(from, value)?;
            let bits = cast_number(op, from, width, number);
            Some(Folded::Number { width, bits })
        }
        _ => None,
    }
}

/// The first row of a cast that fits.
pub(crate) fn cast_rule<'a>(op: CastOp, from: Reg, to: Reg, value: &Operand) -> Option<Folded<'a>>
    requires given { IsReg from }
    requires wanted { IsReg to }
    ensures { row_of result ≡ cast_rule op from to value.now }
{
    if let Some(constant) = cast_constant(op, from, to, value) {
        return Some(constant);
    }
    if is_poison(value) {
        Some(Folded::Poison(to))
    } else {
        None
    }
}

/// The first row of a selection that fits.
pub(crate) fn select_rule<'a>(
    condition: &Operand,
    if_true: &'a Argument,
    if_false: &'a Argument,
) -> Option<Folded<'a>>
    ensures { row_of result ≡ select_rule condition.now if_true.now if_false.now }
{
    if is_poison(condition) {
        return Some(Folded::Poison(if_true.reg));
    }
    match number_of(1, condition) {
        Some(0) => Some(Folded::Same(&if_false.operand)),
        Some(_) => Some(Folded::Same(&if_true.operand)),
        None => when(
            is_same(&if_true.operand, &if_false.operand),
            &if_true.operand,
        ),
    }
}

/// The first row of a freeze that fits: a constant is kept, and poison may be any number.
pub(crate) fn freeze_rule<'a>(reg: Reg, value: &Operand) -> Option<Folded<'a>>
    requires typed { IsReg reg }
    ensures { row_of result ≡ freeze_rule reg value.now }
{
    match reg {
        Reg::Int(width) => {
            if let Some(bits) = number_of(width, value) {
                return Some(Folded::Number { width, bits });
            }
            if is_poison(value) {
                Some(Folded::Number { width, bits: 0 })
            } else {
                None
            }
        }
        Reg::Ptr => None,
    }
}
