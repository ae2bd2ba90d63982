//! Where a worker stands, and what is told of it.

/// What a worker is about to do, or has done.
#[derive(Clone, Copy, Debug, PartialEq, Eq)]
pub enum Stage {
    /// It is about to claim the next piece.
    Claim,
    /// It is about to look its piece up in the cache.
    Look,
    /// It is about to store its piece in the cache.
    Keep,
    /// Its piece has been answered.
    Done,
}

/// A gate that each worker passes before its steps. The program's returns at once; a test's may hold a worker back.
pub trait Gate {
    /// Worker `worker` is at `stage`, with the piece of this number. Before a claim it has none.
    fn pass(&self, worker: u32, number: Option<u32>, stage: Stage);
}
