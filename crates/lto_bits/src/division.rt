//! Divisions and remainders, which round toward zero, and where they are undefined.
ghost use Rattle.std.specs.Prelude.{◌≡◌, ◌<◌, ◌≤◌, ◌^◌};
ghost use Rattle.lto_bits.specs.Operation.{division};
ghost use Rattle.lto_bits.specs.declared.operator.BinaryOp.TheVariants.{Udiv, Sdiv, Urem, Srem};

use crate::answer::{Answer, DivisionCause, value_if};
use crate::operator::Flags;
use crate::word::{greatest, sign_bit, signed, wrap};

// `udiv`.
#[tactic(auto, unfolding(crate::specs::Operation::arithmetic))]
pub fn udiv(flags: Flags, w: u8, a: u64, b: u64) -> Answer
    ensures { result ≡ division Udiv flags w a b }
{
    if b == 0 {
        return Answer::Undefined(DivisionCause::DivisionByZero);
    }
    value_if(!flags.exact || a % b == 0, a / b)
}

// `urem`.
#[tactic(auto, unfolding(crate::specs::Operation::arithmetic))]
pub fn urem(flags: Flags, w: u8, a: u64, b: u64) -> Answer
    ensures { result ≡ division Urem flags w a b }
{
    if b == 0 {
        return Answer::Undefined(DivisionCause::DivisionByZero);
    }
    Answer::Value(a % b)
}

// `sdiv`.
#[tactic(auto, unfolding(crate::specs::Operation::arithmetic))]
pub fn sdiv(flags: Flags, w: u8, a: u64, b: u64) -> Answer
    requires some { 1 ≤ w }
    requires within { w ≤ 64 }
    requires left { a < 2 ^ w }
    requires right { b < 2 ^ w }
    ensures { result ≡ division Sdiv flags w a b }
{
    if b == 0 {
        return Answer::Undefined(DivisionCause::DivisionByZero);
    }
    if b == greatest(w) && a == sign_bit(w) {
        return Answer::Undefined(DivisionCause::DivisionOverflow);
    }
    let dividend = signed(w, a);
    let divisor = signed(w, b);
    let remainder = wrap(w, dividend % divisor);
    value_if(!flags.exact | (remainder == 0), wrap(w, dividend / divisor))
}

// `srem`: the remainder has the dividend's sign.
#[tactic(auto, unfolding(crate::specs::Operation::arithmetic))]
pub fn srem(flags: Flags, w: u8, a: u64, b: u64) -> Answer
    requires some { 1 ≤ w }
    requires within { w ≤ 64 }
    requires left { a < 2 ^ w }
    requires right { b < 2 ^ w }
    ensures { result ≡ division Srem flags w a b }
{
    if b == 0 {
        return Answer::Undefined(DivisionCause::DivisionByZero);
    }
    if b == greatest(w) && a == sign_bit(w) {
        return Answer::Undefined(DivisionCause::DivisionOverflow);
    }
    Answer::Value(wrap(w, signed(w, a) % signed(w, b)))
}
