//! Integer operations of LLVM IR at every width from 1 to 64 bits.
//!
//! The integer part of the instruction set's meaning: binary operations with their flags, comparisons, and the casts
//! between widths, as the LLVM Language Reference gives them. A number of `w` bits is an unsigned value below `2^w`;
//! its signed value is that of two's complement. Nothing stands below this crate.
//!
//! **Promise.** A constant that is folded and an instruction that is interpreted have one meaning: each call equals its
//! definition (`specs/Operation`, `specs/Comparison`, `specs/Cast`) for every width, and the definitions of whole
//! programs are built from these.
//!
//! **Cost.** No call takes memory, and each takes a constant number of machine instructions: values stay in a `u64`,
//! and only the overflow tests of flagged operations widen to 128 bits.
//!
//! **Not shown.** That the definitions are LLVM's: tests compare worked values, and native builds agree with them.
#![tactic(auto)]

mod answer;
mod arithmetic;
mod cast;
mod comparison;
mod division;
mod laws;
mod operation;
mod operator;
mod shift;
mod word;

pub use answer::{Answer, DivisionCause};
pub use cast::{narrow, widen};
pub use comparison::compare;
pub use laws::answers_stay_below;
pub use operation::binary;
pub use operator::{BinaryOp, Flags, Predicate};
