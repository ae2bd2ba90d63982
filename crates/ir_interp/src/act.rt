//! What the topmost frame does in a step: one line or one terminator.
ghost use Rattle.std.specs.Prelude.{◌≡◌, ◌<◌, ℕ, List, Some, IfOk, OnErr};
ghost use Rattle.ir_tree.specs.declared.instr.Line.{Line as MeantLine};
ghost use Rattle.ir_interp.specs.Tasks.{CanRun};
ghost use Rattle.ir_interp.specs.Code.{IsRunnable};
ghost use Rattle.ir_interp.specs.Scenes.{GoesOn, HasDone, IsNext, Plays, Scene};

use crate::call::run_call;
use crate::code::Code;
use crate::frame::{Did, Frame};
use crate::jump::leave_block;
use crate::{CodeLine, Ran, Reached, run_line};
use ir_machine::{Memory, Scalar};
use ir_tree::Cause;
use std::alloc::{AllocError, Global};

/// Runs a line.
fn run(
    alloc: Global,
    frame: &mut Frame,
    code: &Code,
    memory: &mut Memory,
    line: &CodeLine,
    choice: u64,
    given: Option<Option<u8>>,
) -> Result<Did, AllocError>
    requires can { CanRun line.now.task }
    requires more { frame.old.line < usize.MAX }
    ensures ok { IfOk result (λ did. (z : Scene) (l : MeantLine) (rest : List MeantLine) → Plays z code.now memory.old frame.old → IsNext z memory.old line.now l rest → HasDone z choice given memory.old memory.new frame.old frame.new did) }
    ensures err { OnErr result ((z : Scene) (l : MeantLine) (rest : List MeantLine) → Plays z code.now memory.old frame.old → IsNext z memory.old line.now l rest → GoesOn z memory.old memory.new frame.new z.memory z.frame) }
{
    match run_line(alloc, &mut frame.registers, memory, line, choice)? {
        Reached::Ran(Ran::Went { .. }) => {
            frame.line += 1;
            Ok(Did::Went)
        }
        Reached::Ran(Ran::Undefined(cause)) => Ok(Did::Undefined(cause)),
        Reached::Ran(Ran::Uninit) => Ok(Did::Uninit),
        Reached::Call => run_call(alloc, frame, code, memory, line, given),
    }
}

/// What the frame does next, with this answer to a free choice, where the input has what is given. Where memory is
/// refused, frame and memory stand for what they stood for.
pub(crate) fn act(
    alloc: Global,
    frame: &mut Frame,
    code: &Code,
    memory: &mut Memory,
    values: &mut Vec<Scalar>,
    choice: u64,
    given: Option<Option<u8>>,
) -> Result<Did, AllocError>
    requires { IsRunnable code.now }
    ensures ok { IfOk result (λ did. (z : Scene) → Plays z code.now memory.old frame.old → HasDone z choice given memory.old memory.new frame.old frame.new did) }
    ensures err { OnErr result ((z : Scene) → Plays z code.now memory.old frame.old → GoesOn z memory.old memory.new frame.new z.memory z.frame) }
{
    let Some(block) = code.block(frame.function, frame.block) else {
        return Ok(Did::Undefined(Cause::UnreachableReached));
    };
    match block.lines.get(frame.line) {
        Some(line) => run(alloc, frame, code, memory, line, choice, given),
        None => leave_block(frame, code, block, memory, values),
    }
}
