//! Slot promotion: stack slots of scalars become values.
//!
//! An `alloca` of a scalar whose address doesn't escape holds nothing that a value can't (LangRef, "alloca Instruction";
//! LLVM's `mem2reg`); `promotable_slots` finds these. All such slots are promoted at once: at each point of a
//! block a slot has a value, which is its phi's at the block's start, poison behind its `alloca` and the stored operand
//! behind a store. What a load gave is given by a `select` with that value in both arms; nothing is left of the slot's
//! `alloca` and stores. Each block other than the entry that has a predecessor gets a phi for each slot, so neither
//! dominance nor liveness is asked for; phis that nobody needs are for later passes to remove. Below stand `ir_tree`,
//! `promotable_slots`, `ir_flow` over `lto_sets` for predecessor edges, and `ir_meaning` and `ir_edit` for what is proved.
//!
//! **Promise.** The pass is a definition (`specs/Values`, `specs/Promoted`), and the call gives exactly it. Of a sound
//! function the result is better in every program, and sound.
//!
//! **Cost.** Linear in the function's uses and in what is made: slots that are promoted times predecessor edges. A
//! slot's value costs one look-up in a table of what its block stores. [`promote`] finds the edges once, and who calls
//! [`into_promoted`] has them.
//!
//! **Not shown.** That the result is shorter or faster.
#![tactic(auto)]

mod laws;
mod numbers;
mod phis;
mod promotion;
mod slots;
mod values;

pub use laws::{promoted_is_better, promoted_is_sound};
pub use promotion::{into_promoted, promote};
