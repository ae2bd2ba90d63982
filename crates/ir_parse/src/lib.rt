//! Reads bytes as the one module of LLVM IR that they are, or tells their first fault.
//!
//! Below stand tokens (`ir_lex`), the parts of items (`ir_parse_parts`), heads and target lines (`ir_parse_heads`),
//! definitions of functions (`ir_parse_bodies`), variables and type definitions (`ir_parse_globals`), names
//! (`ir_parse_names`), the stages of names (`ir_parse_stages`) and the sizes of shapes (`ir_parse_sizes`), and the
//! functions and variables that are made (`ir_parse_values`). [`parse`] cuts the text into tokens, reads these as
//! items, resolves names, shapes and numbers in stages over the whole text, and gives the module with the lines of its
//! parts. Between the stages of type names and of names of globals [`shapes_within`] refuses a shape past the limits
//! and an index that counts no part. The first place at which no reading goes on is a statement of the grammar alone,
//! and so is why the token there is refused (`specs/Refusals`); behind it the first stage that finds a fault tells it.
//! Beside the reader stand laws: what resolves is formed (`resolved`), and what that asks of a text holds of all that
//! the grammar spells (`spelled`).
//!
//! **Promise.** [`parse`] answers exactly what `specs/Reading` reads, and refuses each other text for its first fault
//! (`specs/FirstFault`), unless memory runs out. Bytes are read as one module or have one first fault ([`decided`],
//! [`one_reading`]), and what is read is formed ([`read_is_parsed`]).
//!
//! **Cost.** Linear in the text, and in its shapes with their type names expanded, which may be exponentially longer.
//! Tokens borrow the text, items hold copies of its names; recursion goes as deep as a shape, 32 levels. A text of
//! `2^32 - 1` bytes or more is answered as want of memory.
//!
//! **Not shown.** That memory is found. That the grammar is LLVM's within the profile: `tests_text` tries it on texts.
#![tactic(auto)]

mod fault;
mod grammar;
mod item_limits;
mod items;
mod laws;
mod reading;
mod resolved;
mod spelled;
mod stages;
mod targets;
mod value_lines;
mod values;

pub use fault::{ReadError, ReadFault};
pub use item_limits::shapes_within;
pub use laws::{decided, one_reading, read_is_parsed};
pub use reading::parse;
pub use resolved::{
    definitions_differ, functions_are_formed, one_resolves, shapes_are_within, variables_are_formed,
};
pub use spelled::{
    front_is_sized, items_are_written, operands_are_written, shapes_are_written, tokens_are_sized,
    types_are_written,
};
