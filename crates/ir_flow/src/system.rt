//! Equations of data flow over the blocks of a graph.
ghost use Rattle.std.specs.Prelude.{◌≡◌, ℕ, ◌<◌, length};
ghost use Rattle.ir_tree.specs.Flow.{Equations as System, KeepsInclusion};
ghost use Rattle.ir_flow.specs.Solving.{AreEdgesOf, IsFixedRow, IsEnd};

use crate::graph::Edges;
use lto_sets::Bits;

/// Equations for sets of members below a size, one set for the start of each block: the meet of what holds at
/// the ends of the block's predecessors, or a row that is given.
///
/// The law is that the transfer of a block keeps inclusion, so there is a greatest solution (Tarski, "A
/// lattice-theoretical fixpoint theorem and its applications", 1955).
pub trait Equations {
    ghost system: { Self → System };

    /// The members of each set are below it.
    fn size(&self) -> u32
        ensures { result ≡ (system self.now).size };

    /// The predecessors of each block, one for each edge.
    fn edges(&self) -> &Edges
        ensures { AreEdgesOf (system self.now) result.now };

    /// The set of a block that isn't met, as the entry's.
    fn fixed(&self, block: u32) -> Option<&Bits>
        requires { block < (system self.now).blocks }
        ensures { IsFixedRow (system self.now) block result };

    /// From what holds at a block's start to what holds at its end, in place.
    fn transfer(&self, block: u32, row: &mut Bits)
        requires block { block < (system self.now).blocks }
        requires row { length row.old ≡ (system self.now).size }
        ensures { IsEnd (system self.now) block row.old row.new };

    ghost lawful: { (s : Self) → KeepsInclusion (system s) };
}
