//! Reads instructions, and the bodies of functions, as trees with their names as they are written.
//!
//! Below stand heads of functions (`ir_parse_heads`), terminators, `alloca` and `getelementptr`, operands and shapes
//! (`ir_parse_operands`), names, types and the laws of forms (`ir_parse_parts`), and tokens (`ir_lex`). `opcodes` tells
//! by its first word which instruction begins; from behind that word `instructions` and `phis` read it, and `calls` a
//! call, of which those of lifetime markers are dropped, and put it behind the lines of its block. `lines` reads it
//! with the name of its result, `blocks` the lines and terminators of all blocks, and `definitions` the whole. A
//! function has at most 65,535 blocks and 200,000 instructions, terminators not among them.
//!
//! **Promise.** [`definition_into`] reads exactly the form of a definition (`specs/Blocks`), and stops at the first
//! token at which no reading goes on, with a fault that says whether a range or a limit is the cause
//! ([`definition_rule`]). Each reader of an instruction gives what the reader on lists of its name gives, as
//! [`phi_into`] (`specs/PhisAt`); lemmas in `proofs/` tie these to the forms of LangRef, "Instruction Reference".
//!
//! **Cost.** Linear in the tokens, with a loop over blocks and one over lines. Memory is taken for the tree; want of it
//! is answered as such.
//!
//! **Not shown.** That memory is found. That this form is LLVM's: it is LangRef, "Functions", within the profile, and
//! `tests_text` tries it on texts. Whether an instruction's types fit, which is `ir_verify`'s.
#![tactic(auto)]

mod blocks;
mod calls;
mod definitions;
mod instructions;
mod laws;
mod lines;
mod meanings;
mod opcodes;
mod phis;

pub use definitions::definition_into;
pub use instructions::{
    casting_into, comparing_into, dividing_into, extending_into, freezing_into, joining_into,
    loading_into, narrowing_into, on_two_into, selecting_into, storing_into, wrapping_into,
};
pub use laws::definition_rule;
pub use opcodes::{Begun, Opcode, Operation};
pub use phis::phi_into;
