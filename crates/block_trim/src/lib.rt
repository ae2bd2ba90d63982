//! Blocks that go: those that aren't reached from a function's entry, and those that can be joined to the only block
//! before them.
//!
//! A block to which no path leads from the entry is trimmed, and with it go the phi entries that name it; numbers stay.
//! A block that another jumps to, and to which no other edge leads, is merged into that block. The first block in block
//! order that can take another one takes it, until none is left; phi entries that named a block that went name the
//! block that took it. Below stand `ir_tree`, `ir_flow` for the blocks that are reached, which are a set of `lto_sets`,
//! and for edges, and `ir_meaning` and `ir_edit` for what is proved.
//!
//! **Promise.** [`trim`] gives the one function of the blocks that paths reach (`specs/Trimmed`). Such joins as
//! [`merge`] makes lead from the function to its result, one after another, and no blocks are left there to be joined
//! (`specs/Merged`): there is one such function. Both are better in every program, and sound where the function is.
//!
//! **Cost.** Time and memory are linear in the function and the greatest number of a block: two blocks are joined in
//! constant time, since their lines stand in linked lists until all are joined, so that each instruction moves once,
//! and phi entries are renamed by one table. [`merge`] lists the edges once, and who calls [`into_merged`] has them.
//!
//! **Not shown.** That memory is found.
#![tactic(auto)]

mod candidates;
mod joining;
mod laws;
mod merge_laws;
mod merging;
mod names;
mod reached;
mod staying;
mod trimming;
mod unjoined;

pub use laws::{trim_is_better, trim_is_one, trim_is_sound};
pub use merge_laws::{merge_is_better, merge_is_one, merge_is_sound};
pub use merging::{into_merged, merge};
pub use trimming::{into_trimmed, trim};
