//! Prints modules of LLVM IR in the one form that this project writes.
//!
//! The printed form is a definition: each part of a tree is a list of tokens, each with the blank before it, nested as
//! the grammar of the LLVM Language Reference nests. Integers are signed decimals, `i1` is `true` or `false`; every
//! load, store, alloca and variable has its alignment; names are bare where they may be and quoted elsewhere; a switch
//! stands on one line. Below stand `ir_tree`, for the trees and for how names are quoted, `ir_lex`, for what tokens
//! are, and `itoa` for decimals.
//!
//! **Promise.** [`print`], [`print_function`] and [`print_variable`] give exactly the form's bytes (`specs/Modules`,
//! `specs/Functions`, `specs/Variables`). That they are read as what was printed is a law of `ir_round_trip`.
//!
//! **Cost.** Time is linear in what is written: each byte is written once, behind what stands there.
//!
//! **Not shown.** That LLVM's tools read this form: a check of the repository tries them on examples. That memory is
//! found.
#![tactic(auto)]

mod block;
mod function;
mod instruction;
mod level;
mod module;
mod operand;
mod operators;
mod token;
mod types;
mod variable;

pub use level::Level;
pub use module::{print, print_function, print_variable};
