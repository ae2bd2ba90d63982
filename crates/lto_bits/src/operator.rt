//! Operators, flags and predicates, under LLVM's names.

/// A binary operation on integers of one width (LLVM Language Reference, "Binary Operations" and
/// "Bitwise Binary Operations").
#[derive(Clone, Copy, Debug, PartialEq, Eq)]
pub enum BinaryOp {
    /// The sum.
    Add,
    /// The difference.
    Sub,
    /// The product.
    Mul,
    /// The unsigned quotient.
    Udiv,
    /// The signed quotient, rounded towards zero.
    Sdiv,
    /// The unsigned remainder.
    Urem,
    /// The signed remainder, which has the sign of the dividend.
    Srem,
    /// Shift left.
    Shl,
    /// Logical shift right: zeros come in.
    Lshr,
    /// Arithmetic shift right: copies of the sign bit come in.
    Ashr,
    /// Bitwise and.
    And,
    /// Bitwise or.
    Or,
    /// Bitwise exclusive or.
    Xor,
}

/// The flags that turn some answers of a binary operation to poison.
///
/// An operation looks only at the flags that the Reference gives it: `nuw` and `nsw` count for
/// `add`, `sub`, `mul` and `shl`, and `exact` for `udiv`, `sdiv`, `lshr` and `ashr`.
#[derive(Clone, Copy, Debug, Default, PartialEq, Eq)]
pub struct Flags {
    /// No unsigned wrap: an unsigned overflow is poison.
    pub nuw: bool,
    /// No signed wrap: a signed overflow is poison.
    pub nsw: bool,
    /// A division with a remainder, or a right shift that loses bits, is poison.
    pub exact: bool,
}

/// The condition of an integer comparison (LLVM Language Reference, "`icmp` Instruction").
#[derive(Clone, Copy, Debug, PartialEq, Eq)]
pub enum Predicate {
    /// Equal.
    Eq,
    /// Not equal.
    Ne,
    /// Unsigned less.
    Ult,
    /// Unsigned less or equal.
    Ule,
    /// Unsigned greater.
    Ugt,
    /// Unsigned greater or equal.
    Uge,
    /// Signed less.
    Slt,
    /// Signed less or equal.
    Sle,
    /// Signed greater.
    Sgt,
    /// Signed greater or equal.
    Sge,
}
