//! The registers that a function begins with (LangRef, "Functions").
ghost use Rattle.std.specs.Prelude.{◌≡◌, ℕ, List, length, IfOk};
ghost use Rattle.ir_tree.specs.declared.operand.Symbol.{Symbol};
ghost use Rattle.ir_meaning.specs.Memory.{Memory as MeantMemory};
ghost use Rattle.ir_machine.specs.declared.memory.Memory.{Memory};
ghost use Rattle.ir_interp.specs.Locals.{AreLocals, register_at};
ghost use Rattle.ir_interp.specs.Calls.{AreValid, all_meant};
ghost use Rattle.ir_interp.specs.Entering.{ParamsFit, params_meant};

use crate::registers::Registers;
use ir_machine::Scalar;
use std::alloc::{AllocError, Global};

/// Registers that were never written, with room for `count` and for those of parameters.
fn unwritten(alloc: Global, count: usize, params: &[u32]) -> Result<Registers, AllocError>
    ensures unwritten { IfOk result (λ r. (x : ℕ) → register_at r x ≡ Scalar.Poison) }
    ensures room { IfOk result (λ r. ParamsFit (length r.cells.items) params.now) }
{
    let mut registers = Registers::new(alloc, count)?;
    for param in params {
        registers.reserve(*param)?;
    }
    Ok(registers)
}

/// Writes the registers of parameters, the first last: of two of one number the first counts.
fn pass(registers: &mut Registers, params: &[u32], arguments: &mut Vec<Scalar>)
    requires room { ParamsFit (length registers.old.cells.items) params.now }
    requires count { length arguments.old.items ≡ length params.now }
    ensures { (names : List Symbol) (m : Memory) (memory : MeantMemory) → ((x : ℕ) → register_at registers.old x ≡ Scalar.Poison) → AreValid names m memory arguments.old.items → AreLocals names m memory registers.new (params_meant params.now (all_meant names arguments.old.items)) }
{
    while let Some(value) = arguments.pop() {
        registers.write(params[arguments.len()], value);
    }
}

/// The registers of a function that is entered with arguments, one for each parameter, with room for
/// `count`. The arguments are used up.
pub fn enter(
    alloc: Global,
    count: usize,
    params: &[u32],
    arguments: &mut Vec<Scalar>,
) -> Result<Registers, AllocError>
    requires { length arguments.old.items ≡ length params.now }
    ensures { IfOk result (λ r. (names : List Symbol) (m : Memory) (memory : MeantMemory) → AreValid names m memory arguments.old.items → AreLocals names m memory r (params_meant params.now (all_meant names arguments.old.items))) }
{
    let mut registers = unwritten(alloc, count, params)?;
    pass(&mut registers, params, arguments);
    Ok(registers)
}
