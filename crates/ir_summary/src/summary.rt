//! The summary of a definition.
use ir_tree::{Linkage, Rows, Text};

/// What a link knows of a definition.
#[derive(Drop, PartialEq, Eq)]
pub struct Summary {
    pub name: Text,
    pub linkage: Linkage,
    /// How many phis, instructions and terminators a function has; `None` of a variable.
    pub count: Option<u32>,
    pub noinline: bool,
    pub optnone: bool,
    /// The callees of its direct calls, each once, in the order in which they first come. A call of
    /// another type than the callee's is direct too.
    pub calls: Rows<Text>,
    /// All names that the body or the initialiser refers to, callees among them, each once, in the
    /// order in which they first come.
    pub refs: Rows<Text>,
}
