//! Dead code elimination: a function without the phis and instructions whose values nobody needs.
//!
//! What is kept is the least set: all terminators, stores and calls, and what gives a value to a local that kept ones
//! read (Cytron et al. 1991, section 7.1). Below stand `ir_tree`, `ir_edit`, whose walk finds uses, and `ir_meaning`
//! for what is proved.
//!
//! **Promise.** The result is the function of that set (`specs/Least`), it is better in every program, and sound where
//! the function is. Laws: there is one such result, and functions under other numbers, as `ir_edit` makes them, are
//! better too.
//!
//! **Cost.** A use is looked at once, as its reader is taken from the work list, in lists by the numbers of readers; so
//! time and memory are linear in the function and the greatest number of a local.
//!
//! **Not shown.** That memory is found.
#![tactic(auto)]

mod elimination;
mod laws;
mod lists;
mod readers;
mod staying;
mod sweep;
mod uses;
mod worklist;

pub use elimination::{into_needed, needed};
pub use laws::{
    needed_is_better, needed_is_one, needed_is_sound, shifted_is_better, text_order_is_better,
};
