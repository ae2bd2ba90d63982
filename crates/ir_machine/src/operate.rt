//! Integer operations, comparisons, casts, `select` and `freeze` on scalars.
//!
//! Each is the definition's operation on what its operands mean. Widths are 1 to 64; an operand that is
//! no number of its operation's width counts as poison. No call takes memory.
ghost use Rattle.std.specs.Prelude.{IfSome, ◌≡◌, ◌<◌, ◌≤◌, ◌^◌, ◌⊎◌, List};
ghost use Rattle.ir_tree.specs.declared.operand.Symbol.{Symbol};
ghost use Rattle.ir_tree.specs.declared.operand.Reg.TheVariants.{Int};
ghost use Rattle.ir_meaning.specs.Operate as operate;
ghost use Rattle.ir_meaning.specs.Operate.{number_or_poison};
ghost use Rattle.ir_meaning.specs.Words.{bit_or_poison, meant as word_meant, meant_cause};
ghost use Rattle.ir_meaning.specs.WordsAgree.{IsCast};
ghost use Rattle.ir_machine.specs.Meant.{meant, answered};

use crate::outcome::Outcome;
use crate::scalar::Scalar;
use ir_meaning::{Answer, DivisionCause, Value};
use ir_tree::{BinaryOp, CastOp, Cause, Flags, Predicate};
use lto_bits::narrow;

/// The number of `width` bits that a scalar is: None where it is poison, a pointer, or a number of more
/// bits.
pub fn bits(width: u8, scalar: Scalar) -> Option<u64>
    requires some { 1 ≤ width }
    requires within { width ≤ 64 }
    ensures bits { (names : List Symbol) → result ≡ operate.bits_of width (meant names scalar) }
    ensures below { IfSome result (λ n. n < 2 ^ width) }
{
    match scalar {
        Scalar::Number(number) => ir_meaning::bits_of(width, &Value::Number(number)),
        Scalar::Pointer(_) | Scalar::Poison => None,
    }
}

/// Why a division is undefined.
fn cause_of(cause: DivisionCause) -> Cause
    ensures { result ≡ meant_cause cause }
{
    match cause {
        DivisionCause::DivisionByZero => Cause::DivisionByZero,
        DivisionCause::DivisionOverflow => Cause::DivisionOverflow,
        DivisionCause::PoisonDivisor => Cause::PoisonDivisor,
    }
}

/// What an operation on words gives, as an outcome.
fn outcome_of(answer: Answer) -> Outcome
    ensures { (names : List Symbol) → answered names result ≡ word_meant answer }
{
    match answer {
        Answer::Value(number) => Outcome::Value(Scalar::Number(number)),
        Answer::Poison => Outcome::Value(Scalar::Poison),
        Answer::Undefined(cause) => Outcome::Undefined(cause_of(cause)),
    }
}

/// A binary operation (LangRef, "Binary Operations" and "Bitwise Binary Operations").
pub fn binary(op: BinaryOp, flags: Flags, width: u8, left: Scalar, right: Scalar) -> Outcome
    requires some { 1 ≤ width }
    requires within { width ≤ 64 }
    ensures { (names : List Symbol) → answered names result ≡ operate.binary op flags width (meant names left) (meant names right) }
{
    let left = bits(width, left);
    let right = bits(width, right);
    outcome_of(ir_meaning::binary(op, flags, width, left, right))
}

/// A truth value, or poison.
fn truth(holds: Option<bool>) -> Scalar
    ensures { (names : List Symbol) → meant names result ≡ bit_or_poison holds }
{
    match holds {
        Some(true) => Scalar::Number(1),
        Some(false) => Scalar::Number(0),
        None => Scalar::Poison,
    }
}

/// A number, or poison.
fn number(bits: Option<u64>) -> Scalar
    ensures { (names : List Symbol) → meant names result ≡ number_or_poison bits }
{
    match bits {
        Some(number) => Scalar::Number(number),
        None => Scalar::Poison,
    }
}

/// A comparison of integers (LangRef, "`icmp` Instruction").
pub fn compare_integers(predicate: Predicate, width: u8, left: Scalar, right: Scalar) -> Scalar
    requires some { 1 ≤ width }
    requires within { width ≤ 64 }
    ensures { (names : List Symbol) → meant names result ≡ operate.compared predicate width (meant names left) (meant names right) }
{
    let left = bits(width, left);
    let right = bits(width, right);
    truth(ir_meaning::compare(predicate, width, left, right))
}

/// A conversion of `from` bits to `to` bits, to at least as many where it extends (LangRef,
/// "Conversion Operations").
pub fn cast(op: CastOp, from: u8, to: u8, value: Scalar) -> Scalar
    requires some { 1 ≤ from }
    requires any { 1 ≤ to }
    requires from_within { from ≤ 64 }
    requires to_within { to ≤ 64 }
    requires wider { IsCast op from to }
    ensures { (names : List Symbol) → meant names result ≡ operate.cast op (Int from) (Int to) (meant names value) }
{
    let value = bits(from, value);
    number(ir_meaning::cast(op, from, to, value))
}

/// A choice between two values (LangRef, "`select` Instruction"): of a poison condition it gives
/// poison, and only the chosen arm counts.
pub fn select(condition: Scalar, if_true: Scalar, if_false: Scalar) -> Scalar
    ensures value { (names : List Symbol) → meant names result ≡ operate.selected (meant names condition) (meant names if_true) (meant names if_false) }
    ensures chosen { (result ≡ if_true) ⊎ ((result ≡ if_false) ⊎ (result ≡ Scalar.Poison)) }
{
    match bits(1, condition) {
        Some(0) => if_false,
        Some(_) => if_true,
        None => Scalar::Poison,
    }
}

/// A number as it is, and for anything else the free choice modulo `2^width` (LangRef, "`freeze`
/// Instruction").
pub fn freeze(width: u8, choice: u64, value: Scalar) -> Scalar
    requires some { 1 ≤ width }
    requires within { width ≤ 64 }
    ensures { (names : List Symbol) → meant names result ≡ operate.frozen (Int width) choice (meant names value) }
{
    match bits(width, value) {
        Some(number) => Scalar::Number(number),
        None => Scalar::Number(narrow(width, choice)),
    }
}
