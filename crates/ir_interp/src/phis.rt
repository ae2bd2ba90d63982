//! Phis (LangRef, "phi Instruction").
ghost use Rattle.std.specs.Prelude.{◌≡◌, ℕ, List, length, OnOk, OnErr};
ghost use Rattle.ir_tree.specs.declared.operand.Symbol.{Symbol};
ghost use Rattle.ir_meaning.specs.Frame.{Locals};
ghost use Rattle.ir_meaning.specs.Memory.{Memory as MeantMemory};
ghost use Rattle.ir_machine.specs.Meant.{meant};
ghost use Rattle.ir_machine.specs.declared.memory.Memory.{Memory};
ghost use Rattle.ir_interp.specs.Locals.{AreLocals, IsValid, register_at};
ghost use Rattle.ir_interp.specs.Phis.{AreEdgesKnown, ArePhisKnown, AreTaken, HaveRoom, edge_meant, phis_meant};

use crate::registers::Registers;
use crate::source::Source;
use ir_machine::Scalar;
use std::alloc::AllocError;

/// What a phi takes on an edge from the block of a number.
#[derive(Clone, Copy)]
pub struct Edge {
    pub from: u32,
    pub source: Source,
}

/// A phi: the register that it gives, and its edges, of which the first that fits counts.
#[derive(Drop)]
pub struct Phi {
    pub local: u32,
    pub edges: Vec<Edge>,
}

impl Registers {
    /// What a phi takes on the edge from a block.
    fn taken(&self, from: u32, edges: &[Edge]) -> Scalar
        ensures value { (names : List Symbol) (m : Memory) (memory : MeantMemory) (locals : Locals) → AreLocals names m memory self.now locals → AreEdgesKnown names m memory edges.now → meant names result ≡ edge_meant names locals from edges.now }
        ensures valid { (names : List Symbol) (m : Memory) (memory : MeantMemory) (locals : Locals) → AreLocals names m memory self.now locals → AreEdgesKnown names m memory edges.now → IsValid names m memory result }
    {
        for edge in edges {
            if edge.from == from {
                return self.value(edge.source);
            }
        }
        Scalar::Poison
    }

    /// Reads what all phis of a block take on the edge from a block, and makes room for their registers,
    /// which stay as they are.
    fn take(&mut self, from: u32, phis: &[Phi], values: &mut Vec<Scalar>) -> Result<(), AllocError>
        ensures taken { OnOk result ((names : List Symbol) (m : Memory) (memory : MeantMemory) (locals : Locals) → AreLocals names m memory self.old locals → ArePhisKnown names m memory phis.now → AreTaken names m memory locals from phis.now values.new.items) }
        ensures room { OnOk result (HaveRoom (length self.new.cells.items) phis.now) }
        ensures count { OnOk result (length values.new.items ≡ length phis.now) }
        ensures same { (x : ℕ) → register_at self.new x ≡ register_at self.old x }
    {
        values.clear();
        for phi in phis {
            self.reserve(phi.local)?;
            values.push(self.taken(from, &phi.edges))?;
        }
        Ok(())
    }

    /// Writes the registers of phis, the first last: of two of one number the first counts.
    fn put(&mut self, phis: &[Phi], values: &mut Vec<Scalar>)
        requires room { HaveRoom (length self.old.cells.items) phis.now }
        requires count { length values.old.items ≡ length phis.now }
        ensures { (names : List Symbol) (m : Memory) (memory : MeantMemory) (locals : Locals) (from : ℕ) → AreLocals names m memory self.old locals → AreTaken names m memory locals from phis.now values.old.items → AreLocals names m memory self.new (phis_meant names locals from phis.now locals) }
    {
        while let Some(value) = values.pop() {
            self.write(phis[values.len()].local, value);
        }
    }

    /// Takes all phis of a block at once, on the edge from a block; `values` is room to work in. Where
    /// memory is refused the registers are as before.
    pub fn enter(
        &mut self,
        from: u32,
        phis: &[Phi],
        values: &mut Vec<Scalar>,
    ) -> Result<(), AllocError>
        ensures ok { OnOk result ((names : List Symbol) (m : Memory) (memory : MeantMemory) (locals : Locals) → AreLocals names m memory self.old locals → ArePhisKnown names m memory phis.now → AreLocals names m memory self.new (phis_meant names locals from phis.now locals)) }
        ensures err { OnErr result ((x : ℕ) → register_at self.new x ≡ register_at self.old x) }
    {
        self.take(from, phis, values)?;
        self.put(phis, values);
        Ok(())
    }
}
