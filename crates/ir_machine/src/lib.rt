//! Values and memory of a machine that runs modules, each operation equal to the definition's.
//!
//! A register holds a [`Scalar`], which is copied without memory: a function is known by its index in the program's
//! table of symbols, a block of memory by a [`Handle`]. Contracts say which value of `ir_meaning` a scalar means.
//! [`Memory`] holds the blocks that live, each with a byte buffer of its own ([`Bytes`]): two bytes for each byte, and
//! a table of the pointers that are stored there. A handle carries the size of its block, which address computation may
//! still ask for when the block is dead, and the block's position while it lives; so a dead block leaves nothing
//! behind. That such a memory stands for the definition's, in which every block that was ever made has its number, is a
//! relation (`specs/Memories`) that each call keeps. A [`Walk`] computes an address: from an offset of an object by one
//! index after another, each a signed number whose value need not be known before (LangRef, "getelementptr
//! Instruction"). Below stand `ir_tree`, `lto_bits` and `ir_meaning`.
//!
//! **Promise.** Loads, stores, new stack blocks and tests on handles are the definitions', for all memories that the
//! machine's stands for; operations on integers, `select` and `freeze` are those of the definitions on what their
//! operands mean; a walk by a list of indices ends at the definition's `new_offset` of that list.
//!
//! **Cost.** Each takes time in proportion to the bytes that it touches, whatever the number of blocks; a pointer's
//! load and store look once into the block's table. Only stores of pointers and new blocks take memory.
//!
//! **Not shown.** That memory is found.
#![tactic(auto)]

mod block;
mod bytes;
mod compare;
mod mark;
mod memory;
mod operate;
mod outcome;
mod part;
mod scalar;
mod walk;

pub use block::{Block, Stored};
pub use bytes::Bytes;
pub use mark::ByteMark;
pub use memory::Memory;
pub use operate::{binary, bits, cast, compare_integers, freeze, select};
pub use outcome::Outcome;
pub use scalar::{Base, Handle, Pointer, Scalar};
pub use walk::Walk;
