//! Reads global variables with their initialisers, type definitions, target lines and attribute groups, with their
//! names as they are written.
//!
//! Below stand lines of the target and attribute groups (`ir_parse_heads`), shapes and operands (`ir_parse_operands`),
//! names, types and the laws of forms (`ir_parse_parts`), and tokens (`ir_lex`). An initialiser nests as deep as its
//! text does: it is kept as a flat list of parts, with the aggregates that are open on a stack, so nothing recurses but
//! in shapes. A number for a pointer, or for what is no scalar, is read and kept, and left to the verifier.
//!
//! **Promise.** Each call gives what its form says of the tokens, or the first token at which no reading goes on, as
//! [`variable_line_into`] (`specs/Variables`), [`initialiser_at`] (`specs/Initialisers`) and [`type_line_into`]
//! (`specs/TypeDefinitions`). The parts of an initialiser that is read are those of one tree (`specs/Closed`).
//!
//! **Cost.** Linear in the tokens. Memory is taken for shapes and parts and for each aggregate that is open; want of it
//! is answered as such.
//!
//! **Not shown.** That memory is found. Whether an initialiser fits its shape, which `ir_verify` says.
#![tactic(auto)]

mod constants;
mod initialisers;
mod laws;
mod lines;
mod pairs;
mod type_definitions;
mod variables;

pub use constants::constant_at;
pub use initialisers::{Aggregate, initialiser_at, scalar_of};
pub use lines::{attribute_group_into, layout_line_into, triple_line_into};
pub use type_definitions::type_line_into;
pub use variables::variable_line_into;
