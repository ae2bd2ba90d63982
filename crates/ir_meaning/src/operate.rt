//! What instructions compute of numbers and poison.
//!
//! An operand is given as its bits: the number that it is, below `2^width`, or None where it counts as
//! poison, as [`bits_of`] gives it. Widths are 1 to 64.
ghost use Rattle.std.specs.Prelude.{IfSome, true, ◌≡◌, ◌<◌, ◌≤◌, ◌^◌};
ghost use Rattle.ir_meaning.specs.Operate.{binary_bits, bits_of as bits_in, cast_bits, compared_bits, number_or_poison};
ghost use Rattle.ir_meaning.specs.Arithmetic.{is_division};
ghost use Rattle.ir_meaning.specs.WordsAgree.{IsCast, poison_quotient};
ghost use Rattle.ir_meaning.specs.Words.{bit_or_poison, meant};

use crate::operators::{condition, marks, operation};
use crate::value::Value;
use ir_tree::{BinaryOp, CastOp, Flags, Predicate};
use lto_bits::{Answer, DivisionCause, narrow, widen};

/// The number of `width` bits that a value is: None where it is poison, a pointer, or a number of more
/// bits (LangRef, "Poison Values").
pub fn bits_of(width: u8, value: &Value) -> Option<u64>
    requires some { 1 ≤ width }
    requires within { width ≤ 64 }
    ensures bits { result ≡ bits_in width value.now }
    ensures below { IfSome result (λ n. n < 2 ^ width) }
{
    if let Value::Number(number) = value {
        if narrow(width, *number) == *number {
            return Some(*number);
        }
    }
    None
}

/// Whether an operation divides.
fn divides(op: BinaryOp) -> bool
    ensures { result ≡ is_division op }
{
    match op {
        BinaryOp::Udiv | BinaryOp::Sdiv | BinaryOp::Urem | BinaryOp::Srem => true,
        _ => false,
    }
}

/// Poison divided by a number, which is undefined where the division of some number is. Of all dividends
/// the least number as signed is one that breaks where any does.
fn poison_divided(op: BinaryOp, width: u8, divisor: u64) -> Answer
    requires divides { is_division op ≡ true }
    requires some { 1 ≤ width }
    requires within { width ≤ 64 }
    requires below { divisor < 2 ^ width }
    ensures { meant result ≡ poison_quotient op width divisor }
{
    let least = 1 << (width - 1);
    let unmarked = lto_bits::Flags {
        nuw: false,
        nsw: false,
        exact: false,
    };
    match lto_bits::binary(operation(op), unmarked, width, least, divisor) {
        Answer::Undefined(cause) => Answer::Undefined(cause),
        _ => Answer::Poison,
    }
}

/// What a binary operation gives (LangRef, "Binary Operations" and "Bitwise Binary Operations").
///
/// Of poison it gives poison, but a division by poison is undefined, and so is a division of poison by a
/// number by which some division is.
pub fn binary(
    op: BinaryOp,
    flags: Flags,
    width: u8,
    left: Option<u64>,
    right: Option<u64>,
) -> Answer
    requires some { 1 ≤ width }
    requires within { width ≤ 64 }
    requires left { IfSome left (λ a. a < 2 ^ width) }
    requires right { IfSome right (λ b. b < 2 ^ width) }
    ensures { meant result ≡ binary_bits op flags width left right }
{
    match (left, right) {
        (Some(left), Some(right)) => {
            lto_bits::binary(operation(op), marks(flags), width, left, right)
        }
        (None, Some(right)) => {
            if divides(op) {
                poison_divided(op, width, right)
            } else {
                Answer::Poison
            }
        }
        (_, None) => {
            if divides(op) {
                Answer::Undefined(DivisionCause::PoisonDivisor)
            } else {
                Answer::Poison
            }
        }
    }
}

/// Whether a predicate holds of integers: None is poison (LangRef, "`icmp` Instruction").
pub fn compare(
    predicate: Predicate,
    width: u8,
    left: Option<u64>,
    right: Option<u64>,
) -> Option<bool>
    requires some { 1 ≤ width }
    requires within { width ≤ 64 }
    requires left { IfSome left (λ a. a < 2 ^ width) }
    requires right { IfSome right (λ b. b < 2 ^ width) }
    ensures { bit_or_poison result ≡ compared_bits predicate width left right }
{
    match (left, right) {
        (Some(left), Some(right)) => {
            let holds = lto_bits::compare(condition(predicate), width, left, right);
            Some(holds)
        }
        _ => None,
    }
}

/// A number of `from` bits as one of `to` bits: None is poison (LangRef, "Conversion Operations"). An
/// extension is to at least as many bits.
pub fn cast(op: CastOp, from: u8, to: u8, value: Option<u64>) -> Option<u64>
    requires some { 1 ≤ from }
    requires any { 1 ≤ to }
    requires from_within { from ≤ 64 }
    requires to_within { to ≤ 64 }
    requires wider { IsCast op from to }
    requires below { IfSome value (λ a. a < 2 ^ from) }
    ensures { number_or_poison result ≡ cast_bits op from to value }
{
    let number = value?;
    Some(match op {
        CastOp::Zext => widen(false, from, to, number),
        CastOp::Sext => widen(true, from, to, number),
        CastOp::Trunc => narrow(to, number),
    })
}
