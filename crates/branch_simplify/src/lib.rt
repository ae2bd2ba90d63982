//! Constant branches: a `br` or a `switch` that leads to one block whatever happens becomes a jump.
//!
//! A `br` on `true` or `false` or with equal targets, and a `switch` on a constant or without cases, is decided. With
//! an edge goes a phi entry of the block that it led to, of those for the edge's block the last one: so phis keep one
//! entry for each predecessor edge (LLVM Language Reference, "phi Instruction"). What branches on `poison` is kept,
//! unless it has one target or no cases: to reach it is undefined, which no other block need be. Below stand `ir_tree`,
//! `ir_flow`, and `ir_meaning` for what is proved.
//!
//! **Promise.** The pass is a definition (`specs/Simplified`), and the call gives exactly it. Of a sound function the
//! result is better in every program, and sound.
//!
//! **Cost.** Time and memory are linear in the function: lost edges are gathered once by their target, and each phi's
//! entries are counted once.
//!
//! **Not shown.** That memory is found.
#![tactic(auto)]

mod counts;
mod decide;
mod entries;
mod laws;
mod lost;
mod simplify;
mod staying;

pub use laws::{simplified_is_better, simplified_is_sound};
pub use simplify::{branches, into_simplified};
