//! The stages over names that a module in the grammar passes before trees are made of it: type names, and names of
//! globals.
//!
//! Below stand the tree of what is written (`ir_parse_parts`), and names and shapes (`ir_parse_names`). [`gather`] goes
//! once over the items and keeps, in the order of the text, what names a type or a global and what has a shape. Over
//! these marks [`types_in`] refuses a type name that is defined twice, isn't defined, is opaque or holds itself, and
//! [`globals_in`] a global that is defined twice or isn't defined. [`graph_of`] is the graph of type names, and
//! [`Circles`] says of each of its places whether a walk leads from it back to it; [`order_of`] has each name behind
//! those in its definition. Items are lent: the one lifetime is that of the loan, and names are borrowed from them.
//!
//! **Promise.** Each call gives what its definition says, the fault and its line among it, unless memory runs out:
//! [`types_in`] by `ir_parse_names/specs/TypeNames`, [`globals_in`] by `ir_parse_names/specs/Stages`, and [`Circles`]
//! by the definition of walks (`ir_parse_names/specs/Walks`).
//!
//! **Cost.** Names are found by hash: linear in the text, and in the graph. A question about a place on a circle takes
//! a search of the graph. Recursion goes as deep as a shape, 32 levels. Memory is taken for marks, names and places.
//!
//! **Not shown.** That the places of a graph are numbered by components, and in which order [`order_of`] has them; both
//! decide only how long it takes. That memory is found. That LLVM tells the same fault first of a text with several.
#![tactic(auto)]

mod circles;
mod global_names;
mod graph;
mod instructions;
mod items;
mod mark;
mod name_graph;
mod ranks;
mod search;
mod type_names;
mod uses;

pub use circles::Circles;
pub use global_names::globals_in;
pub use graph::Graph;
pub use items::gather;
pub use mark::{Mark, Marks};
pub use name_graph::graph_of;
pub use ranks::order_of;
pub use type_names::types_in;
