//! Rows of comparisons (LLVM Language Reference, "icmp Instruction").
ghost use Rattle.std.specs.Prelude.{◌≡◌};
ghost use Rattle.ir_tree.specs.Formed.{IsReg};
ghost use Rattle.ir_meaning.specs.Table.{compared_addresses, compared_constants, comparison_rule, equality, is_reflexive};
ghost use Rattle.fold_rules.specs.Folding.{row_of};
ghost use Rattle.fold_rules.specs.Unequal.{unequal_at};

use crate::folded::Folded;
use crate::operands::{is_poison, is_same, is_same_symbol, number_of};
use crate::rows::truth;
use ir_meaning::compare;
use ir_tree::{Operand, Predicate, Reg};

/// What a comparison of two integer constants gives.
fn compared_constants<'a>(
    predicate: Predicate,
    reg: Reg,
    left: &Operand,
    right: &Operand,
) -> Option<Folded<'a>>
    requires typed { IsReg reg }
    ensures { row_of result ≡ compared_constants predicate reg left.now right.now }
{
    match reg {
        Reg::Int(width) => {
            let left = number_of(width, left)?;
            let right = number_of(width, right)?;
            let holds = compare(predicate, width, Some(left), Some(right))?;
            Some(truth(holds))
        }
        Reg::Ptr => None,
    }
}

/// Whether a predicate holds of a value and itself.
fn is_reflexive(predicate: Predicate) -> bool
    ensures { result ≡ is_reflexive predicate }
{
    matches!(
        predicate,
        Predicate::Eq | Predicate::Uge | Predicate::Ule | Predicate::Sge | Predicate::Sle
    )
}

/// What an equality gives of operands that are equal, or aren't.
fn equality<'a>(predicate: Predicate, equal: bool) -> Option<Folded<'a>>
    ensures { row_of result ≡ equality predicate equal }
{
    match predicate {
        Predicate::Eq => Some(truth(equal)),
        Predicate::Ne => Some(truth(!equal)),
        _ => None,
    }
}

/// What a comparison of null and a symbol gives, or of one symbol at two offsets.
fn compared_addresses<'a>(
    predicate: Predicate,
    reg: Reg,
    left: &Operand,
    right: &Operand,
) -> Option<Folded<'a>>
    ensures { row_of result ≡ compared_addresses predicate reg left.now right.now }
{
    if let Reg::Int(_) = reg {
        return None;
    }
    match (left, right) {
        (Operand::Null, Operand::Symbol { offset, .. }) => unequal_to_null(predicate, *offset),
        (Operand::Symbol { offset, .. }, Operand::Null) => unequal_to_null(predicate, *offset),
        (
            Operand::Symbol { symbol, offset },
            Operand::Symbol {
                symbol: other,
                offset: own,
            },
        ) => {
            if is_same_symbol(symbol, other) {
                equality(predicate, *offset == *own)
            } else {
                None
            }
        }
        _ => None,
    }
}

/// What an equality of null and a symbol at an offset gives: a symbol's own address isn't null.
fn unequal_to_null<'a>(predicate: Predicate, offset: u64) -> Option<Folded<'a>>
    ensures { row_of result ≡ unequal_at predicate offset }
{
    if offset == 0 {
        equality(predicate, false)
    } else {
        None
    }
}

/// The first row of a comparison that fits.
pub(crate) fn comparison_rule<'a>(
    predicate: Predicate,
    reg: Reg,
    left: &Operand,
    right: &Operand,
) -> Option<Folded<'a>>
    requires typed { IsReg reg }
    ensures { row_of result ≡ comparison_rule predicate reg left.now right.now }
{
    if let Some(constant) = compared_constants(predicate, reg, left, right) {
        return Some(constant);
    }
    if is_poison(left) || is_poison(right) {
        return Some(Folded::Poison(Reg::Int(1)));
    }
    if is_same(left, right) {
        return Some(truth(is_reflexive(predicate)));
    }
    compared_addresses(predicate, reg, left, right)
}
