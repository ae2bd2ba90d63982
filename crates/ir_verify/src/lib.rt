//! The verifier: the rules of soundness, item by item and over whole functions, and the least fault of a module.
//!
//! [`learned`] gathers what is known of a function: where each local and each block is defined, and the edges into each
//! block. [`phi_broken`], [`line_broken`] and [`end_broken`] answer with the first rule that a phi, a line or a
//! terminator of a formed function breaks. What is available is answered point by point, from the place of a local's
//! definition and the dominators of its function. [`function_fault`] goes over all items of a function and keeps the
//! fault of the least line, and on one line of the least rule; [`init_fits`] says whether an initialiser fits a shape.
//! Below stand `ir_tree`, and the edges and dominators of `ir_flow`.
//!
//! **Promise.** [`verify`] answers with the sound module, or with its least fault (`specs/Modules`):
//! no fault is told exactly where each function keeps all eight rules (`specs/Rules` of `ir_tree`) and each initialiser
//! fits. With the module goes the control flow of each function: its edges, and the blocks that are reached.
//!
//! **Cost.** Tables go by the numbers of locals and blocks; a phi is checked in the time of sorting its entries, a
//! switch in that of its cases, any other item in that of its operands.
//!
//! **Not shown.** That these are LLVM's rules: a check of the repository compares examples with its verifier. That
//! memory is found.
#![tactic(auto)]

mod available;
mod blocks;
mod cases;
mod definitions;
mod entry;
mod fault;
mod globals;
mod initial;
mod instructions;
mod items;
mod known;
mod phis;
mod reads;
mod table;
mod types;
mod verifier;

pub use blocks::function_fault;
pub use definitions::{Definition, Home};
pub use fault::{VerifyError, VerifyFault, noted, rule_number};
pub use initial::init_fits;
pub use items::{end_broken, line_broken, phi_broken};
pub use known::{Known, learned};
pub use reads::{end_read, read_at, read_count};
pub use table::Table;
pub use verifier::verify;
