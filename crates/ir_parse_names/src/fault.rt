//! What is wrong with a name, a shape or an index of a module whose text is in the grammar.

use ir_tree::Failure;

/// What a name, a shape or an index breaks.
#[derive(Clone, Copy, Debug, PartialEq, Eq)]
pub enum NameFault {
    /// A name that is defined before, or a number below the counter.
    Twice,
    /// A name that nothing of its sort is defined under, or a type without an expansion.
    Unknown,
    /// A shape that passes a limit as it is expanded.
    Limit,
    /// An index of a constant address that its shape has no part at.
    Index,
}

/// A fault, and the line of the token that it stands at.
#[derive(Clone, Copy, Debug, PartialEq, Eq)]
pub struct Fault {
    pub line: u32,
    pub kind: NameFault,
}

/// Why a module isn't resolved.
pub type ResolveError = Failure<Fault>;
