//! Tests of text and of what is read of it, on small examples worked out by hand.
//!
//! They try trees, tokens, printed forms, edits and data flow (`ir_tree`, `ir_lex`, `ir_print`, `ir_edit`, `ir_flow`);
//! numbers that digits write (`ir_parse_parts`); first faults of items, and whole modules, as they are printed or refused
//! (`ir_parse`), some of them read again from their print; the circles of one graph (`ir_parse_stages`); and the verifier
//! (`ir_verify`). Like cases are rows of one constant table, which one test reads: a row of a constant costs the proof
//! next to nothing, a row in a function's body a second and more. The tests stand above the crates, so that their own
//! proofs are not done twice, and in one crate, so that their statements are loaded once.
//!
//! **Promise.** No clause: a test that passes tells of its own texts alone. What the clauses of these crates say is not
//! tried again here: these texts, whose places and kinds of faults were worked out by hand, try whether forms and
//! definitions are the language.
//!
//! **Cost.** All texts are small or made by a loop, and a test takes what the calls that it tries take; where memory is
//! refused a test fails.
//!
//! **Not shown.** Anything of texts that no row has. That LLVM answers alike: rows were worked out from the LLVM
//! Language Reference, and only printed texts are given to LLVM's assembler (`checks/llvm_accepts`).
#![tactic(auto)]

#[cfg(test)]
mod forms;
#[cfg(test)]
mod items;
#[cfg(test)]
mod modules;
#[cfg(test)]
mod parts;
#[cfg(test)]
mod trees;
#[cfg(test)]
mod verifier;
