//! Phis over sources (LangRef, "phi Instruction").
ghost use Rattle.std.specs.Prelude.{◌≡◌, IfOk};
ghost use Rattle.std.specs.List.{AllZip};
ghost use Rattle.machine_code.specs.Blocks.{IsEdge, IsPhi};

use crate::addresses::Addresses;
use ir_interp::{Edge, Phi};
use std::alloc::{AllocError, Global};

impl<'a> Addresses<'a> {
    /// What a phi takes on an edge.
    fn edge(&self, incoming: &ir_tree::Incoming) -> Edge
        ensures { IsEdge self.now incoming.now result }
    {
        Edge {
            from: incoming.from,
            source: self.source(&incoming.value),
        }
    }

    /// What a phi takes on the edges into its block.
    fn edges(&self, alloc: Global, incoming: &[ir_tree::Incoming]) -> Result<Vec<Edge>, AllocError>
        ensures { IfOk result (λ edges. AllZip (IsEdge self.now) incoming.now edges.items) }
    {
        let mut edges = Vec::with_capacity(alloc, incoming.len())?;
        for entry in incoming {
            edges.push(self.edge(entry))?;
        }
        Ok(edges)
    }

    /// A phi over sources.
    fn phi(&self, alloc: Global, phi: &ir_tree::Phi) -> Result<Phi, AllocError>
        ensures { IfOk result (λ q. IsPhi self.now phi.now q) }
    {
        let edges = self.edges(alloc, phi.incoming.as_slice())?;
        Ok(Phi {
            local: phi.local,
            edges,
        })
    }

    /// The phis of a block over sources.
    pub(crate) fn phis(&self, alloc: Global, phis: &[ir_tree::Phi]) -> Result<Vec<Phi>, AllocError>
        ensures { IfOk result (λ all. AllZip (IsPhi self.now) phis.now all.items) }
    {
        let mut all = Vec::with_capacity(alloc, phis.len())?;
        for phi in phis {
            let lowered = self.phi(alloc, phi)?;
            all.push(lowered)?;
        }
        Ok(all)
    }
}
