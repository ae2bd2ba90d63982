//! Rows of binary operations (LLVM Language Reference, "Binary Operations", "Bitwise Binary Operations").
ghost use Rattle.std.specs.Prelude.{◌≡◌, ◌≤◌, ◌<◌, ◌^◌, Some};
ghost use Rattle.ir_meaning.specs.Operate.{binary_bits};
ghost use Rattle.ir_meaning.specs.Arithmetic.{is_division};
ghost use Rattle.ir_meaning.specs.Table.{binary_rule, constant_answer, poisoned, unchanged, zeroed};
ghost use Rattle.fold_rules.specs.Folding.{row_of};

use crate::folded::Folded;
use crate::operands::{is_all_ones, is_number, is_poison, is_same, number_of};
use crate::rows::{either, when};
use ir_meaning::{Answer, binary};
use ir_tree::{BinaryOp, Flags, Operand, Reg};

/// The value of two constants, or poison; none where the operation is undefined.
fn folded<'a>(op: BinaryOp, flags: Flags, width: u8, left: u64, right: u64) -> Option<Folded<'a>>
    requires some { 1 ≤ width }
    requires within { width ≤ 64 }
    requires left { left < 2 ^ width }
    requires right { right < 2 ^ width }
    ensures { row_of result ≡ constant_answer width (binary_bits op flags width (Some left) (Some right)) }
{
    match binary(op, flags, width, Some(left), Some(right)) {
        Answer::Value(bits) => Some(Folded::Number { width, bits }),
        Answer::Poison => Some(Folded::Poison(Reg::Int(width))),
        Answer::Undefined(_) => None,
    }
}

fn divides(op: BinaryOp) -> bool
    ensures { result ≡ is_division op }
{
    match op {
        BinaryOp::Udiv | BinaryOp::Sdiv | BinaryOp::Urem | BinaryOp::Srem => true,
        _ => false,
    }
}

/// Poison of a poison operand. A poison divisor is undefined instead.
fn poisoned<'a>(
    op: BinaryOp,
    width: u8,
    left: &'a Operand,
    right: &'a Operand,
) -> Option<Folded<'a>>
    ensures { row_of result ≡ poisoned op width left.now right.now }
{
    if is_poison(left) || (!divides(op) && is_poison(right)) {
        Some(Folded::Poison(Reg::Int(width)))
    } else {
        None
    }
}

/// The operand that an operation leaves as it is, as `add` does of zero.
fn unchanged<'a>(
    op: BinaryOp,
    width: u8,
    left: &'a Operand,
    right: &'a Operand,
) -> Option<Folded<'a>>
    requires some { 1 ≤ width }
    requires within { width ≤ 64 }
    ensures { row_of result ≡ unchanged op width left.now right.now }
{
    match op {
        BinaryOp::Add => either(is_number(0, right), left, is_number(0, left), right),
        BinaryOp::Mul => either(is_number(1, right), left, is_number(1, left), right),
        BinaryOp::Sub | BinaryOp::Xor | BinaryOp::Shl | BinaryOp::Lshr | BinaryOp::Ashr => {
            when(is_number(0, right), left)
        }
        BinaryOp::Udiv | BinaryOp::Sdiv => when(is_number(1, right), left),
        BinaryOp::And => either(is_all_ones(width, right), left, is_same(left, right), left),
        BinaryOp::Or => either(is_number(0, right), left, is_same(left, right), left),
        BinaryOp::Urem | BinaryOp::Srem => None,
    }
}

/// Zero, where an operation gives it whatever a local is, as `xor` does of a local and itself.
fn zeroed<'a>(op: BinaryOp, width: u8, left: &'a Operand, right: &'a Operand) -> Option<Folded<'a>>
    ensures { row_of result ≡ zeroed op width left.now right.now }
{
    let holds = match op {
        BinaryOp::Mul => is_number(0, right) || is_number(0, left),
        BinaryOp::And => is_number(0, right),
        BinaryOp::Sub | BinaryOp::Xor => is_same(left, right),
        BinaryOp::Urem | BinaryOp::Srem => is_number(1, right),
        _ => false,
    };
    if holds {
        Some(Folded::Number { width, bits: 0 })
    } else {
        None
    }
}

/// The first row of a binary operation that fits. Two constants fit the first row, which has no operand where the
/// operation is undefined of them.
pub(crate) fn binary_rule<'a>(
    op: BinaryOp,
    flags: Flags,
    width: u8,
    left: &'a Operand,
    right: &'a Operand,
) -> Option<Folded<'a>>
    requires some { 1 ≤ width }
    requires within { width ≤ 64 }
    ensures { row_of result ≡ binary_rule op flags width left.now right.now }
{
    if let (Some(a), Some(b)) = (number_of(width, left), number_of(width, right)) {
        return folded(op, flags, width, a, b);
    }
    if let Some(poison) = poisoned(op, width, left, right) {
        return Some(poison);
    }
    if let Some(operand) = unchanged(op, width, left, right) {
        return Some(operand);
    }
    zeroed(op, width, left, right)
}
