//! What an operation answers: a number, poison, or undefined behaviour with its cause.
ghost use Rattle.std.specs.Prelude.{◌≡◌, Bool};
ghost use Rattle.lto_bits.specs.Operation.{allowed, value_or_poison};

/// What a binary operation on two numbers gives.
#[derive(Clone, Copy, Debug, PartialEq, Eq)]
pub enum Answer {
    /// A number below `2^w`.
    Value(u64),
    /// The poison value (LLVM Language Reference, "Poison Values").
    Poison,
    /// Undefined behaviour.
    Undefined(DivisionCause),
}

/// Why an integer operation is undefined behaviour, in the order in which causes are looked for.
#[derive(Clone, Copy, Debug, PartialEq, Eq)]
pub enum DivisionCause {
    /// A division or remainder whose divisor is 0.
    DivisionByZero,
    /// `sdiv` or `srem` of the least number by -1.
    DivisionOverflow,
    /// A division or remainder by poison. Operands here are numbers, so no call of this crate
    /// answers it.
    PoisonDivisor,
}

// This value, or poison where a flag or an oversized shift forbids it.
pub fn value_if(holds: bool, value: u64) -> Answer
    ensures { result ≡ value_or_poison (allowed holds value) }
{
    if holds {
        Answer::Value(value)
    } else {
        Answer::Poison
    }
}
