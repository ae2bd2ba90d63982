//! What a pass knows of the word: its view. It stands in contracts alone.
use std::collections::LinkedList;

/// What a pass has drawn, and which passes it holds. No value of this type is ever made.
pub struct Draws {
    /// The numbers that it drew, each below the limit, in the order in which it drew them.
    pub numbers: LinkedList<u64>,
    /// How many of its draws found the word at or past the limit.
    pub overruns: u64,
    /// Whether it has met the end: one of these draws was its own, or of a pass that it was split
    /// from or has taken in.
    pub ended: bool,
    /// The caller bits that it holds, each the number of a pass: its own, and those of the passes
    /// that it has taken in.
    pub bits: LinkedList<u64>,
    /// The passes that it knows to have been made: its own, and those that were split from it, from
    /// one that it came from, or from one that it has taken in.
    pub made: LinkedList<u64>,
    /// It knows that at least so many passes were made.
    pub seen: u64,
    /// The limit of its word.
    pub limit: u64,
}
