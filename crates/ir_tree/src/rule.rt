//! The rules of soundness.

/// What a function or an initialiser has to keep to be sound. The order is that of the rules' numbers, from 1: of two rules that are
/// broken on one line the first counts.
#[derive(Clone, Copy, Debug, PartialEq, Eq, PartialOrd, Ord)]
pub enum Rule {
    /// An operand has the type that is written before it, and an initialiser fits its shape.
    TypeMismatch,
    /// What is used is available there.
    NotAvailable,
    /// A phi has one entry for each edge into its block, and equal entries for one block.
    PhiEdges,
    /// Phis stand first in their block, and none in the entry.
    PhiPlace,
    /// No edge leads to the entry.
    EntryBranch,
    /// The indices of an address follow the shape.
    Index,
    /// Casts and `freeze` are of integers, and casts go the right way; signed comparisons are of integers.
    Cast,
    /// The cases of a `switch` differ.
    CaseTwice,
}
