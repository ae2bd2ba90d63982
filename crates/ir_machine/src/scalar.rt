//! What registers hold (LangRef, "Poison Values" and "Pointer Type").

/// A block of memory as pointers to it know it: its number among all blocks that were ever made, its
/// position among those that lived when it was made, and its size in bytes, which it keeps when it dies.
#[derive(Clone, Copy, Debug)]
pub struct Handle {
    pub number: usize,
    pub position: usize,
    pub size: u64,
}

/// What a pointer is based on: nothing (`null`), a function or host function by its index in the
/// program's table of symbols, or a block of memory.
#[derive(Clone, Copy, Debug)]
pub enum Base {
    Null,
    Function(u32),
    Block(Handle),
}

/// An address: a base, and an offset in bytes modulo `2^64`.
#[derive(Clone, Copy, Debug)]
pub struct Pointer {
    pub base: Base,
    pub offset: u64,
}

/// The value of a register: a number below `2^N` of an `iN`, a pointer, or poison. It is copied
/// without memory; contracts say which `ir_meaning::Value` it means.
#[derive(Clone, Copy, Debug)]
pub enum Scalar {
    Number(u64),
    Pointer(Pointer),
    Poison,
}
