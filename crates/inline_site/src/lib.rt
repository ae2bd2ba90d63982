//! Inlining at a call: the callee's body in the place of a direct call of it.
//!
//! The block of the call keeps what stands before the call and jumps to the copy of the callee's entry; the copy's
//! blocks follow, with arguments for parameters, and then a new block with what stands behind the call, to which each
//! return of the copy jumps. The call's result is there a phi of the returned values (`specs/Inlined`). What the copy
//! adds takes the numbers after the caller's greatest, in the order of the text (`specs/Copies`); all else keeps its
//! number, and stack slots stay at their place. [`inline_at`] inlines at one call. A [`Caller`] is a function that
//! calls are inlined into block by block: it keeps the first number that is free, and puts off until its end what an
//! inlining changes elsewhere: phi entries that named the block of a call, and uses of results that no return gives
//! (`specs/Callers`). [`arguments_of`] tells whether an instruction is a call that may take a body. Below stand
//! `ir_tree`, `ir_edit`, whose edits make the copy, and `ir_meaning` for what is proved.
//!
//! **Promise.** The result is one, sound where both functions are, and uses no other symbols than they do
//! (`specs/Laws`); it is better in every program in which the callee's body is the program's own.
//!
//! **Cost.** Inlining into a [`Caller`] costs what the callee is long, with one look-up in a table for each use in it,
//! however long the caller is. The end costs one look-up for each phi entry, and one more copy of the function where a
//! result is lost. [`inline_at`] copies the function once.
//!
//! **Not shown.** That memory is found; a number past 32 bits is answered as want of it.
#![tactic(auto)]

mod caller;
mod copy;
mod free;
mod inline;
mod late;
mod laws;
mod names;
mod open;
mod returns;
mod site;

pub use caller::Caller;
pub use inline::inline_at;
pub use laws::{
    inlined_is_better, inlined_is_known, inlined_is_one, inlined_is_sound, inlined_keeps_interface,
};
pub use open::Open;
pub use site::arguments_of;
