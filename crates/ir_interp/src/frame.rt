//! Frames: activations of functions.
ghost use Rattle.std.specs.Prelude.{◌≡◌, List};
ghost use Rattle.ir_tree.specs.declared.operand.Symbol.{Symbol};
ghost use Rattle.ir_meaning.specs.Act as act;
ghost use Rattle.ir_meaning.specs.Frame.{Frame as MeantFrame, Locals, bind};
ghost use Rattle.ir_meaning.specs.Memory.{Memory as MeantMemory};
ghost use Rattle.ir_meaning.specs.Program.{Program};
ghost use Rattle.ir_machine.specs.declared.memory.Memory.{Memory};
ghost use Rattle.ir_interp.specs.Locals.{AreLocals};
ghost use Rattle.ir_interp.specs.Ran.{HasRoom};
ghost use Rattle.ir_interp.specs.Frames.{IsFrame};
ghost use Rattle.ir_interp.specs.Scenes.{IsValidAnswer, answer_meant};

use crate::Registers;
use ir_machine::Scalar;
use ir_tree::Cause;

/// An activation of a function: the function by the index of its symbol, the position of the block that it
/// is in, how many lines of the block are done, its registers, how many blocks of memory lived when it
/// began, and the register that takes the answer of the call that it waits for.
#[derive(Drop)]
pub struct Frame {
    pub function: u32,
    pub block: usize,
    pub line: usize,
    pub registers: Registers,
    pub base: usize,
    pub awaits: Option<u32>,
}

/// What a frame did in a step.
#[derive(Drop)]
pub(crate) enum Did {
    Went,
    Wrote(u8),
    Wants,
    Enters(Frame),
    Gives(Option<Scalar>),
    Undefined(Cause),
    Uninit,
}

/// Writes the answer of a call to the register that takes it, where there is room for it.
fn bind_answer(registers: &mut Registers, local: Option<u32>, answer: Option<Scalar>)
    ensures { (names : List Symbol) (m : Memory) (memory : MeantMemory) (locals : Locals) → AreLocals names m memory registers.old locals → HasRoom registers.old local → IsValidAnswer names m memory answer → AreLocals names m memory registers.new (bind local (answer_meant names answer) locals) }
{
    let Some(register) = local else {
        return;
    };
    let Some(value) = answer else {
        return;
    };
    if (register as usize) < registers.cells.len() {
        registers.write(register, value);
    }
}

impl Frame {
    /// Goes on with the answer that it waited for, where there is room for it.
    pub(crate) fn resume(&mut self, answer: Option<Scalar>)
        ensures goes { (names : List Symbol) (p : Program) (m : Memory) (memory : MeantMemory) (d : MeantFrame) → IsFrame names p m memory self.old d → HasRoom self.old.registers self.old.awaits → IsValidAnswer names m memory answer → IsFrame names p m memory self.new (act.resume d (answer_meant names answer)) }
        ensures base { self.new.base ≡ self.old.base }
    {
        bind_answer(&mut self.registers, self.awaits, answer);
        self.awaits = None;
    }
}
