//! Why a run is undefined.

/// Why an instruction or a terminator is undefined behaviour.
///
/// Where several causes fit, the first in this order counts.
#[derive(Clone, Copy, Debug, PartialEq, Eq)]
pub enum Cause {
    /// A division or remainder by zero.
    DivisionByZero,
    /// A signed division or remainder by -1 of the least number, or of poison, which may stand for it.
    DivisionOverflow,
    /// A division or remainder by poison.
    PoisonDivisor,
    /// A `br` or a `switch` on poison.
    BranchOnPoison,
    /// An `unreachable`.
    UnreachableReached,
    /// A call of a pointer that is no function's address.
    CallOfNoFunction,
    /// A call with another function type than the definition's.
    CallOfAnotherType,
    /// A poison argument of `putchar`.
    PoisonArgument,
    /// An access through poison, null, a function or a dead block.
    BadPointer,
    /// A store to a `constant`.
    StoreToConstant,
    /// An access to a byte that its block doesn't have.
    OutOfBounds,
    /// An access of an alignment that doesn't divide the block's alignment and the offset.
    Misaligned,
}
