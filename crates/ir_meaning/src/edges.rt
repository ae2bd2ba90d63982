//! Counts of edges: in a sound function each phi has as many entries that name a block as edges lead from that block.
//!
//! Passes that change edges stand on this. It is proved with counts over lists of edges and blocks found by their number or
//! their place.
ghost use Rattle.ir_meaning.specs.EdgeCounts.{EntriesAreEdges};

/// In a sound function each phi has as many entries that name a block as edges lead from that block to the phi's
/// (LLVM Language Reference, "phi Instruction").
pub fn entries_are_edges()
    ensures { EntriesAreEdges }
{}
