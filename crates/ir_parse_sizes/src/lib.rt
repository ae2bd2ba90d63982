//! How big the shapes are in which type names stand, and whether those of instructions are within the limits.
//!
//! Below stand names and their expansion (`ir_parse_names`), the tree of what is written (`ir_parse_parts`) and that
//! which is made (`ir_tree`). [`Sizes`] measures each type name once, and says whether a shape is within the limits as
//! its names expand, without spelling it out: 32 names of two each stand for 2^32 shapes. `limits` asks it of the
//! shapes of an operand and of a type name, and `instruction_limits` of those of all blocks of a function.
//!
//! **Promise.** [`Sizes`] answers as the expansion would, the fault and its line among it
//! (`ir_parse_names/specs/Types`), unless memory runs out; and so does [`blocks_within`], by
//! `ir_parse_names/specs/Stages`.
//!
//! **Cost.** Linear in the definitions; at each use in the shape's own text. The shapes of constant addresses are
//! spelled out with their names expanded. Recursion goes as deep as a shape, 32 levels. Want of memory is answered as
//! such.
//!
//! **Not shown.** That names are measured in an order in which each stands behind those in its definition, which
//! decides only how long it takes. That memory is found.
#![tactic(auto)]

mod instruction_limits;
mod limits;
mod measure;
mod sizes;
mod weigh;

pub use instruction_limits::blocks_within;
pub use limits::{operand_within, shape_within, typed_within};
pub use sizes::Sizes;
