//! What modules mean: a restatement of the parts of the LLVM Language Reference that this project's
//! profile has, as definitions on which all theorems about programs stand, and the laws of better functions.
//!
//! **What.** `specs/Act` says what one frame does next by itself; below it stand values, memory and the operations,
//! which on numbers are those of `lto_bits`. `Program` makes states and steps of whole programs out of that, and `Run`
//! makes runs. `Programs` says which program a list of global values means, of a module as of what a link makes of
//! many: what each symbol is, which body it has, and which bytes memory begins with. `Refine` says when the runs of one
//! program are matched by those of another, and `Near` when one function is better than another in a program. Values,
//! bytes, events, causes and places are Rust types, which code uses too; what runs are the integer operations on
//! machine words and the looks at one global value ([`defined_blocks`], [`defined_init`], [`symbol_of`]). Below stand
//! `ir_tree` and `lto_bits`.
//!
//! **Promise.** The definitions are total, they compute, and the programs in `specs/Examples` and `specs/NativeRuns`
//! run to the ends that the Reference gives and native builds show; the operations on words are those of the
//! definitions ([`operations_agree`]). Each law is the contract of a public function with an empty body. A pass proves
//! that its plan meets a law's condition, and has by the law that its result is better in every program; what is
//! better in one program may be taken in a row there, and a program of better functions refines the program. The
//! program of a list of global values is one of which these laws may speak ([`programs_are_formed`]), and a module
//! that was verified can be run ([`verified_is_runnable`]).
//!
//! **Cost.** No call takes memory, and each takes a constant number of machine instructions.
//!
//! **Not shown.** That these definitions are LLVM's, beyond the Reference's text and the programs that run as native
//! builds do.
#![tactic(auto)]

mod defined;
mod edges;
mod event;
mod examples;
mod fault;
mod functions;
mod naming;
mod operate;
mod operators;
mod passes;
mod program_laws;
mod programs;
mod value;
mod word_laws;

pub use defined::{defined_blocks, defined_init, symbol_of};
pub use edges::entries_are_edges;
pub use event::Event;
pub use examples::{example_operations, example_runs, native_runs};
pub use fault::Place;
pub use functions::{composition, larger_bounds, passes_in_a_row, reflexivity};
pub use lto_bits::{Answer, DivisionCause};
pub use naming::{chain_under, emitted_refines, kept_refines, linked_refines, renamed_refines};
pub use operate::{binary, bits_of, cast, compare};
pub use passes::{
    inlined_better, needed_better, promoted_better, renumbered_better, replaced_better,
    reshaped_better, rules_right, table_right,
};
pub use program_laws::{
    initialisers_have_their_size, programs_are_formed, programs_open_inside, verified_is_runnable,
};
pub use programs::{congruence, transitivity};
pub use value::{Base, Byte, Value};
pub use word_laws::operations_agree;
