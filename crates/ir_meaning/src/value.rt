//! What registers and bytes of memory hold (LangRef, "Poison Values", "Pointer Type" and "Memory Model").

use ir_tree::Symbol;

/// What a pointer is based on: nothing (`null`), a function, or a block of memory.
///
/// Blocks are numbered as they are made: first the program's variables in its order, then the stack
/// blocks. Offsets are bytes modulo `2^64`.
#[derive(Drop, PartialEq, Eq)]
pub enum Base {
    Nowhere,
    Code(Symbol),
    Cell(usize),
}

/// The value of a register: a number below `2^N` of an `iN`, a pointer, or poison.
#[derive(Drop, PartialEq, Eq)]
pub enum Value {
    Number(u64),
    Pointer { base: Base, offset: u64 },
    Poison,
}

/// A byte of memory: never written, poison, a number, or one of the eight bytes of a pointer.
#[derive(Drop, PartialEq, Eq)]
pub enum Byte {
    Unset,
    Spoilt,
    Plain(u8),
    Fragment { index: u8, base: Base, offset: u64 },
}
