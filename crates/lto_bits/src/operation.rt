//! Binary operations.
ghost use Rattle.std.specs.Prelude.{◌≡◌, ◌<◌, ◌≤◌, ◌^◌};
ghost use Rattle.lto_bits.specs.Operation.{binary_of};

use crate::answer::Answer;
use crate::arithmetic::{add, mul, sub};
use crate::division::{sdiv, srem, udiv, urem};
use crate::operator::{BinaryOp, Flags};
use crate::shift::{ashr, lshr, shl};

/// What a binary operation gives on two numbers of `w` bits, which is 1 to 64; both are below
/// `2^w` (LLVM Language Reference, "Binary Operations" and "Bitwise Binary Operations").
///
/// Sums, differences, products and left shifts wrap modulo `2^w`. A flag that is not met, and a
/// shift by `w` bits or more, is poison. A division by zero, and `sdiv` or `srem` of the least
/// number by -1, is undefined behaviour.
#[tactic(auto, unfolding(crate::specs::Operation::arithmetic))]
pub fn binary(op: BinaryOp, flags: Flags, w: u8, a: u64, b: u64) -> Answer
    requires some { 1 ≤ w }
    requires within { w ≤ 64 }
    requires left { a < 2 ^ w }
    requires right { b < 2 ^ w }
    ensures { result ≡ binary_of op flags w a b }
{
    match op {
        BinaryOp::Add => add(flags, w, a, b),
        BinaryOp::Sub => sub(flags, w, a, b),
        BinaryOp::Mul => mul(flags, w, a, b),
        BinaryOp::Udiv => udiv(flags, w, a, b),
        BinaryOp::Sdiv => sdiv(flags, w, a, b),
        BinaryOp::Urem => urem(flags, w, a, b),
        BinaryOp::Srem => srem(flags, w, a, b),
        BinaryOp::Shl => shl(flags, w, a, b),
        BinaryOp::Lshr => lshr(flags, w, a, b),
        BinaryOp::Ashr => ashr(flags, w, a, b),
        BinaryOp::And => Answer::Value(a & b),
        BinaryOp::Or => Answer::Value(a | b),
        BinaryOp::Xor => Answer::Value(a ^ b),
    }
}
