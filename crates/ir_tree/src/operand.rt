//! What instructions read: registers' types, symbols and operands.

use crate::text::Text;

/// A scalar type, which a register has: an integer of 1 to 64 bits, or a pointer (LangRef, "Integer
/// Type" and "Pointer Type").
#[derive(Clone, Copy, Debug, PartialEq, Eq, PartialOrd, Ord)]
pub enum Reg {
    Int(u8),
    Ptr,
}

/// What a global name stands for.
///
/// In a module as it is read, and in the linked module, `home` is `None` everywhere: a name means
/// what its own module defines or declares under it. In the merged program a definition that is
/// local to a module (`private` or `internal`) has its module's number as its home, so locals of
/// two modules never meet.
#[derive(Drop, PartialEq, Eq, PartialOrd, Ord)]
pub struct Symbol {
    pub home: Option<u32>,
    pub name: Text,
}

/// What an instruction, a terminator or an initialiser reads.
///
/// `Number` keeps the width of its literal and bits below `2^width`; `true` and `false` are numbers
/// of width 1. The address of a symbol carries a byte offset modulo `2^64`, to which a constant
/// `getelementptr` is folded.
#[derive(Drop, PartialEq, Eq, PartialOrd, Ord)]
pub enum Operand {
    Local(u32),
    Number { width: u8, bits: u64 },
    Null,
    Poison(Reg),
    Symbol { symbol: Symbol, offset: u64 },
}

/// An operand with the type that is written before it.
#[derive(Drop, PartialEq, Eq)]
pub struct Argument {
    pub reg: Reg,
    pub operand: Operand,
}
