//! What a place knows of the lock: its view. It stands in contracts alone.
use std::collections::LinkedList;

/// Where a caller is in its turn. No value of this type is ever made.
pub enum Stage<R> {
    /// It has no ticket.
    Out,
    /// It waits with this ticket.
    Waiting(u64),
    /// It has the value, whose history was this list when it was taken.
    Inside(u64, LinkedList<R>),
    /// It has put the value back, and its ticket is still the one that is served.
    Counted(u64),
}

/// What a caller has seen, and where it stands. No value of this type is ever made.
pub struct Sight<R> {
    /// So many turns it may still take.
    pub turns: u64,
    /// The history as its last turn found it.
    pub before: LinkedList<R>,
    /// The history as its last turn left it.
    pub seen: LinkedList<R>,
    /// What a place had seen that it has just taken in.
    pub also: LinkedList<R>,
    /// Where it is in its turn.
    pub stage: Stage<R>,
}
