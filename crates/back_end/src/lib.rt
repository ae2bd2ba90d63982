//! The back end: the passes over one function, in their order.
//!
//! A sound function first goes three times through the inline walk: the first call that may take a body takes it, and
//! the walk goes on behind the body, until no call takes one (`inline_site`; `specs/Walk`, [`next_is_behind`]). A body
//! may be inlined where the function is defined for good, no attribute forbids it, it doesn't call itself, and it is no
//! longer than the limit (`specs/Inlinable`); a caller has room up to 20,000 phis, instructions and terminators. Bodies
//! are as they were read, never optimised ones; [`Bodies`] finds them by their functions' names. Then stack slots
//! become values (`slot_promote`). Three times follow propagation of copies and constants (`ir_facts`), decided
//! branches as jumps (`branch_simplify`), trimming of blocks that aren't reached and joining of blocks (`block_trim`),
//! and dead code elimination (`dead_code`); at the end locals and blocks are numbered in the order of the text
//! (`ir_edit`). A function that is `optnone` stays as it was. Below stand the passes, and `ir_meaning` for what is
//! proved.
//!
//! **Promise.** The order is a definition (`specs/Made`), and [`compile`] gives a function by it: sound, and better in
//! every program whose own the bodies are ([`made_is_better`]). What is made has the interface of what it was made of
//! ([`made_has_interface`]), names no symbol that neither this nor a body names ([`made_is_known`]), and there is one
//! function only that is made of each sound one ([`made_is_one`]).
//!
//! **Cost.** That of the passes; a walk goes over the function once, and costs what the function and the bodies that it
//! takes are long. No walk or turn is made behind one that changed nothing. A function's control flow is handed from pass
//! to pass: the caller may know it, and it is found again once a turn where it isn't known, and behind decided branches
//! and blocks that went.
//!
//! **Not shown.** That the result is faster or shorter; that memory is found.
#![tactic(auto)]

mod bodies;
mod calls;
mod inlinable;
mod laws;
mod passes;
mod walker;

pub use bodies::Bodies;
pub use laws::{
    made_has_interface, made_is_better, made_is_known, made_is_one, next_is_behind, walk_is_better,
    walk_is_one,
};
pub use passes::compile;
pub use walker::walk;
