//! The names of a module that is in the grammar: of types, globals, attribute groups and a function's locals.
//!
//! Below stand the tree of what is written (`ir_parse_parts`), tokens (`ir_lex`), the tree that is made (`ir_tree`) and
//! `indexmap`, which keeps names in the order in which they are first seen. [`Types`], [`Globals`], [`Locals`] and
//! [`Groups`] hold names, borrowed from the written tree. Type names are expanded within the limits ([`expanded`]),
//! constant addresses folded to a symbol and an offset ([`address_offset`]). Trees are made in `ir_parse_values`. The
//! definitions of stages over a whole module stand here too, for the crates above.
//!
//! **Promise.** A call gives what its definition says, the fault with its kind and line among it, unless memory runs
//! out (`specs/Resolving`): [`expanded`] by `specs/Types`, [`Globals`] by `specs/Globals`, [`Locals`] by `specs/Locals`.
//!
//! **Cost.** Names are found by hash, and what a chain of type names leads to is found once for each name. A shape with
//! its names expanded may be exponentially longer than its text, up to 32 levels and 2^31 bytes, and recursion goes as
//! deep as its levels.
//!
//! **Not shown.** That memory is found, for an expanded shape least of all. That hashes seldom collide, on which time
//! rests.
#![tactic(auto)]

mod address;
mod allocation;
mod expand;
mod fault;
mod globals;
mod groups;
mod heads;
mod key;
mod locals;
mod name_set;
mod number;
mod symbol;
mod types;

pub use address::address_offset;
pub use allocation::{align_or, allocated};
pub use expand::{expanded, limit};
pub use fault::{Fault, NameFault, ResolveError};
pub use globals::{Globals, name_of};
pub use groups::{Groups, groups_of, is_noinline, is_optnone};
pub use heads::Types;
pub use locals::{Locals, Sort};
pub use name_set::NameSet;
pub use symbol::{symbol_name, symbol_of};
pub use types::{TypeNames, shape_if, unknown};
