//! Lowering: global values that can be run as the code and the memory of the interpreter's machine (LLVM Language
//! Reference, "Module Structure", "Functions", "Global Variables", "Complex Constants", "Instruction Reference").
//!
//! [`lower`] takes a list of global values, a module's or a link's, and makes for each symbol, by the index of its
//! global value, what it is for calls and, where it is defined, its blocks by position, with lines, phis and
//! terminators over sources. A register is the local of its number; a symbol's address is found by home and name in its
//! table ([`Addresses`], over [`Bases`]), and blocks by number. [`Lowered::root`] finds the functions in which a run
//! can begin. [`opening`] makes the memory: a block for each variable that is defined, in the order of the global
//! values, with the bytes of its initialiser, part by part of its flat form; so it may nest as deep as its text does.
//! Nothing is asked of the symbols that are read: one that isn't there is poison, as in the program. Below stand
//! `ir_tree`, `ir_meaning`, `ir_machine` and `ir_interp`.
//!
//! **Promise.** The code is the program's that the global values mean (`IsLowered`), its lines can run, the table has
//! for each symbol its address (`IsTable`), the memory stands for the one that the program begins with (`IsOpening`),
//! and what is known before the run is valid over each memory that has the program's variables at the positions of
//! their numbers (`IsMadeOf`).
//!
//! **Cost.** One pass over the global values: time and memory are linear in them and in the bytes of the variables.
//!
//! **Not shown.** That memory is found; `2^32` global values or more are answered by an error of their own.
#![tactic(auto)]

mod addresses;
mod bases;
mod block;
mod code;
mod exit;
mod image;
mod key;
mod open;
mod phi;
mod positions;
mod root;
mod start;
mod symbol;
mod task;

pub use addresses::Addresses;
pub use bases::Bases;
pub use code::{Lowered, lower};
pub use key::Key;
pub use root::Root;
pub use start::opening;
