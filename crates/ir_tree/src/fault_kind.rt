//! What is wrong with a text.

use crate::text::Text;

/// Why a text is read as no module.
#[derive(Drop)]
pub enum FaultKind {
    /// A byte that begins no token, a string that isn't closed, or a name that holds a zero byte.
    Lex,
    /// A token with which no module goes on, where no other kind fits, or the end of a text that is no module.
    Syntax,
    /// A token of a part of the language that isn't covered, with the token's own bytes.
    Profile { word: Text },
    /// A literal, an alignment or a count that is out of its range.
    Number,
    /// One more than a limit allows, or a shape or a file that is past one.
    Limit,
    /// A name that is defined a second time, or a number below the counter.
    Twice,
    /// A name that nothing of its sort is defined under, or a type that is opaque or holds itself.
    Unknown,
    /// A data layout that isn't supported.
    Layout,
    /// An index of a constant address that its shape has no part at.
    Index,
}
