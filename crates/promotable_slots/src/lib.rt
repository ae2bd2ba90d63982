//! Which stack slots can be promoted: scalars whose address doesn't escape.
//!
//! An `alloca` of a scalar whose address is used for loads and stores of its type alone holds nothing that a value can't
//! (LangRef, "alloca Instruction"; LLVM's `isAllocaPromotable`). The uses of all locals are gathered once
//! ([`Use`]), and of each local a table keeps whether all of them are accesses of one type. Below stand `ir_tree`,
//! `ir_edit` for the walk over a function's uses, and `ir_meaning` for types that are compared.
//!
//! **Promise.** The call gives exactly the slots of the definition (`specs/Slots`, over the uses of `specs/Uses`), in the
//! order of their `alloca`s. That promotion of these keeps what a program does is shown in `slot_promote`.
//!
//! **Cost.** Linear in the function's slots and uses; where it has no slot of a scalar, no use is gathered.
//!
//! **Not shown.** That no other slot could be promoted.
#![tactic(auto)]

mod slots;
mod uses;

pub use slots::{Slot, promoted_slots};
pub use uses::Use;
