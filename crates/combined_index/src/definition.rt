//! A definition of a module, as the decisions of a link see it.
use ir_tree::{Linkage, Rows};

/// One definition of a module. Symbols go by their numbers in the index.
#[derive(Drop)]
pub struct Definition {
    pub symbol: u32,
    pub linkage: Linkage,
    /// How many phis, instructions and terminators a function has; `None` of a variable.
    pub count: Option<u32>,
    pub noinline: bool,
    pub optnone: bool,
    /// Whether this is the definition of its symbol that counts in the link: one that is local to
    /// its module always does, another one where resolution names its module (LangRef, "Linkage
    /// Types").
    pub prevails: bool,
    /// The callees of its direct calls, each once.
    pub calls: Rows<u32>,
    /// All symbols that the body or the initialiser refers to, callees among them, each once.
    pub refs: Rows<u32>,
}
