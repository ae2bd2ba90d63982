//! The aggregates that an initialiser opens.

/// An aggregate constant: what opens it, separates its parts and closes it.
#[derive(Clone, Copy, Debug, PartialEq, Eq)]
pub enum Level {
    /// `[ .. ]`
    Array,
    /// `{ .. }`
    Struct,
    /// `<{ .. }>`
    PackedStruct,
}
