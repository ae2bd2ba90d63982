//! What instructions come to, and the registers that take their results.
ghost use Rattle.std.specs.Prelude.{◌≡◌, ℕ, List, Some, OnOk};
ghost use Rattle.ir_tree.specs.declared.operand.Symbol.{Symbol};
ghost use Rattle.ir_meaning.specs.Frame.{Locals, bind};
ghost use Rattle.ir_meaning.specs.Memory.{Memory as MeantMemory};
ghost use Rattle.ir_machine.specs.Meant.{meant};
ghost use Rattle.ir_machine.specs.declared.memory.Memory.{Memory};
ghost use Rattle.ir_interp.specs.Locals.{AreLocals, IsValid, register_at};
ghost use Rattle.ir_interp.specs.Ran.{HasRoom};

use crate::registers::Registers;
use ir_machine::Scalar;
use ir_tree::Cause;
use std::alloc::AllocError;

/// What an instruction came to.
#[derive(Clone, Copy)]
pub enum Ran {
    /// It went on; an `alloca` made a stack block.
    Went { reserved: bool },
    /// It is undefined behaviour.
    Undefined(Cause),
    /// It read a byte that was never written.
    Uninit,
}

impl Registers {
    /// Makes room for the register that takes a result, if one does.
    pub fn reserve_result(&mut self, local: Option<u32>) -> Result<(), AllocError>
        ensures room { OnOk result (HasRoom self.new local) }
        ensures same { (x : ℕ) → register_at self.new x ≡ register_at self.old x }
    {
        match local {
            Some(register) => self.reserve(register),
            None => Ok(()),
        }
    }

    /// Writes a result to the register that takes it, if one does.
    pub fn bind(&mut self, local: Option<u32>, value: Scalar)
        requires { HasRoom self.old local }
        ensures { (names : List Symbol) (m : Memory) (memory : MeantMemory) (locals : Locals) → AreLocals names m memory self.old locals → IsValid names m memory value → AreLocals names m memory self.new (bind local (Some (meant names value)) locals) }
    {
        if let Some(register) = local {
            self.write(register, value);
        }
    }
}
