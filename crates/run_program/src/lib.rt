//! The run of a program: modules, merged, from their root to how the ending is told.
//!
//! Below stand the crates of modules' meaning (`ir_meaning`, `merge_meaning`, `symbol_resolve`) and of the interpreter
//! (`ir_machine`, `machine_code`, `ir_interp`), and `lto_outside`, `lto_words` and `lto_fault`. [`run_merged`] takes
//! sound modules and what is asked for ([`RunOptions`]). It merges the modules, lowers what they mean together and
//! opens the memory, finds the root and takes its arguments (`given`: decimals as bits of the root's parameters), and
//! runs the code with the input and the output. It gives what the root returned, or why the run didn't return
//! (`telling`), with the file of the module that defines the function. Modules that clash are to be refused before.
//!
//! **Promise.** The run is the definition's of the merged modules with 0 as every free choice, in its ending, in what
//! it writes and in how much it reads ([`run_merged`], `specs/Runs`), and for each answer there is a cause
//! (`specs/Causes`).
//!
//! **Cost.** Modules are copied once where they are merged; a run takes the time of its steps, of which the caller sets
//! the number, and memory for its frames and blocks. Want of memory is an answer at any time, and that of modules that
//! clash.
//!
//! **Not shown.** That this meaning is LLVM's: `checks/native_runs` compares runs with native ones. Other free choices
//! than 0, of which the definition has runs too. That memory is found.
#![tactic(auto)]

mod ending;
mod given;
mod literals;
mod merged;
mod program;
mod root;
mod streams;
mod telling;

pub use given::arguments;
pub use merged::run_merged;
pub use root::RunOptions;
pub use streams::output;
pub use telling::{returned, undefined, uninit};
