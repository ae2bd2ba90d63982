//! Frames of functions that are entered (LangRef, "Functions").
ghost use Rattle.std.specs.Prelude.{◌≡◌, ℕ, List, IfOk};
ghost use Rattle.ir_tree.specs.declared.operand.Symbol.{Symbol};
ghost use Rattle.ir_meaning.specs.Memory.{Memory as MeantMemory};
ghost use Rattle.ir_meaning.specs.Program.{Program};
ghost use Rattle.ir_machine.specs.declared.memory.Memory.{Memory};
ghost use Rattle.ir_interp.specs.Calls.{AreValid, all_meant};
ghost use Rattle.ir_interp.specs.Code.{IsCode};
ghost use Rattle.ir_interp.specs.Frames.{IsOpened};

use crate::code::Code;
use crate::enter;
use crate::frame::Frame;
use ir_machine::Scalar;
use std::alloc::{AllocError, Global};

/// The frame of the function of an index that is entered with arguments where `base` blocks live: None where
/// no function is defined there, or one of another number of parameters. The arguments may be used up.
#[tactic(auto, using(crate::proofs::Opening::opened_nowhere))]
pub(crate) fn open(
    alloc: Global,
    code: &Code,
    function: u32,
    arguments: &mut Vec<Scalar>,
    base: usize,
) -> Result<Option<Frame>, AllocError>
    ensures { IfOk result (λ opened. (names : List Symbol) (p : Program) (m : Memory) (memory : MeantMemory) → IsCode names p code.now → AreValid names m memory arguments.old.items → IsOpened names p m memory function (all_meant names arguments.old.items) base opened) }
{
    let Some(body) = code.function(function) else {
        return Ok(None);
    };
    if arguments.len() != body.params.len() {
        return Ok(None);
    }
    let registers = enter(alloc, body.registers, &body.params, arguments)?;
    Ok(Some(Frame {
        function,
        block: 0,
        line: 0,
        registers,
        base,
        awaits: None,
    }))
}
