//! The registers of a frame.
ghost use Rattle.std.specs.Prelude.{◌≡◌, ◌==◌, ◌<◌, ◌≤◌, ℕ, List, length, if◌then◌else◌, IfOk, OnOk};
ghost use Rattle.ir_tree.specs.declared.operand.Symbol.{Symbol};
ghost use Rattle.ir_meaning.specs.Frame.{Locals};
ghost use Rattle.ir_meaning.specs.Memory.{Memory as MeantMemory};
ghost use Rattle.ir_machine.specs.declared.memory.Memory.{Memory};
ghost use Rattle.ir_interp.specs.Locals.{AreLocals, IsKnown, Evaluates, register_at};

use crate::source::Source;
use ir_machine::Scalar;
use std::alloc::{AllocError, Global};

/// The values of a frame's locals by their numbers: a register that was never written holds poison.
#[derive(Drop)]
pub struct Registers {
    pub cells: Vec<Scalar>,
}

impl Registers {
    /// Registers that were never written, with room for `count`.
    pub fn new(alloc: Global, count: usize) -> Result<Registers, AllocError>
        ensures { IfOk result (λ r. (x : ℕ) → register_at r x ≡ Scalar.Poison) }
    {
        Ok(Registers {
            cells: Vec::with_capacity(alloc, count)?,
        })
    }

    /// What a register holds.
    pub fn read(&self, register: u32) -> Scalar
        ensures { result ≡ register_at self.now register }
    {
        match self.cells.get(register as usize) {
            Some(value) => *value,
            None => Scalar::Poison,
        }
    }

    /// The value of a source.
    pub fn value(&self, source: Source) -> Scalar
        ensures { (names : List Symbol) (m : Memory) (memory : MeantMemory) (locals : Locals) → AreLocals names m memory self.now locals → IsKnown names m memory source → Evaluates names m memory locals source result }
    {
        match source {
            Source::Register(register) => self.read(register),
            Source::Known(value) => value,
        }
    }

    /// Makes room for a register; no register changes. Where memory is refused there may be no room.
    pub fn reserve(&mut self, register: u32) -> Result<(), AllocError>
        ensures room { OnOk result (register < length self.new.cells.items) }
        ensures same { (x : ℕ) → register_at self.new x ≡ register_at self.old x }
        ensures longer { length self.old.cells.items ≤ length self.new.cells.items }
    {
        let count = register as usize + 1;
        if self.cells.len() < count {
            self.cells.resize(count, Scalar::Poison)?;
        }
        Ok(())
    }

    /// Writes a register that there is room for.
    pub fn write(&mut self, register: u32, value: Scalar)
        requires { register < length self.old.cells.items }
        ensures written { (x : ℕ) → register_at self.new x ≡ (if register == x then value else register_at self.old x) }
        ensures room { length self.new.cells.items ≡ length self.old.cells.items }
    {
        self.cells[register as usize] = value;
    }
}
