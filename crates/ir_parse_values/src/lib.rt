//! Makes the functions and variables of a module of what is written: each with its names resolved.
//!
//! Below stand the names of a module (`ir_parse_names`), what is written (`ir_parse_parts`) and the tree that is made (`ir_tree`).
//! [`locals_of`] numbers the locals of a function in the order of its text; [`block_of`] makes a block whose locals and
//! targets are numbers, type names expanded and alignments filled in; [`function_in`] makes a function,
//! [`declaration_in`] a declaration, and [`variable_in`] a variable with its initialiser ([`init_in`]). Items are lent: the
//! one lifetime is that of the loan.
//!
//! **Promise.** A call gives what its definition says, the fault with its kind and line among it, unless memory runs
//! out: [`function_in`] by `specs/Blocks`, [`variable_in`] by `Variables` of `ir_parse_names`.
//!
//! **Cost.** Linear in the text and in the shapes that are spelled out with their names expanded. Memory is taken for
//! trees.
//!
//! **Not shown.** That memory is found.
#![tactic(auto)]

mod block;
mod collected;
mod declaration;
mod function;
mod initialiser;
mod instr;
mod numbering;
mod operand;
mod terminator;
mod variable;

pub use block::{Body, block_of};
pub use declaration::declaration_in;
pub use function::{blocks_in, function_in};
pub use initialiser::init_in;
pub use numbering::locals_of;
pub use variable::variable_in;
