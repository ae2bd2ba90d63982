//! Modules of LLVM IR as trees, and the text and lists that they are made of.
//!
//! Nothing stands below this crate but the standard library. A tree holds what a module's text says and nothing of how
//! it was written: no lines, no local names, no spellings of numbers. Contracts see shapes and initialisers as data
//! types and every list as a list, so `≡` between two trees is equality of what they say. [`Parsed`] is a module that
//! is formed, with lines beside it, and [`Verified`] one that is sound; both keep that in their types. What formed and
//! sound are (`specs/Formed`, `specs/Rules`, `specs/Wholes`), and what edges, paths and dominance (`specs/Flow`), is
//! defined here for the crates above. [`FaultKind`] and [`Rule`] say why a text is no sound module, [`Failure`] why a
//! call that may find a fault has no answer.
//!
//! **Promise.** [`size_of`], [`align_of`] and [`offset_of`] give what LangRef, "Data Layout", says of x86-64
//! (`specs/Layout`); a copy ([`Duplicate`]) is equal to what it was made of, and a name that is printed is read as
//! itself ([`quoted_again`], `specs/Names`).
//!
//! **Cost.** Layout takes one pass over a shape and no memory. A copy takes one pass over a tree and memory in its
//! size, and so does the text of a name; want of memory is answered as `AllocError`, and a [`Text`] or a list
//! ([`Rows`]) that couldn't be added to is as it was.
//!
//! **Not shown.** That a copy is ever made: a refusal for want of memory meets each clause. That these layouts are
//! those of LLVM's back end, beyond the examples of `tests_text`.
#![tactic(auto)]

mod block;
mod cause;
mod duplicate;
mod failure;
mod fault_kind;
mod function;
mod init;
mod init_node;
mod instr;
mod layout;
mod module;
mod name;
mod operand;
mod order;
mod parsed;
mod rows;
mod rule;
mod same;
mod shape;
mod target_line;
mod text;
mod verified;

pub use block::{Block, Case, Terminator};
pub use cause::Cause;
pub use duplicate::Duplicate;
pub use failure::Failure;
pub use fault_kind::FaultKind;
pub use function::{Function, Linkage, Param, Variable};
pub use init::Init;
pub use init_node::{InitHead, InitPart};
pub use instr::{BinaryOp, CastOp, Flags, Incoming, Instr, Line, Phi, Predicate};
pub use layout::{align_of, offset_of, size_of};
pub use module::{GlobalValue, Module};
pub use name::{
    Escape, escape_into, is_bare, quote_into, quoted, quoted_again, unescaped, unquoted,
};
pub use operand::{Argument, Operand, Reg, Symbol};
pub use parsed::Parsed;
pub use rows::Rows;
pub use rule::Rule;
pub use shape::{Shape, ShapeNode};
pub use target_line::TargetLine;
pub use text::Text;
pub use verified::Verified;
