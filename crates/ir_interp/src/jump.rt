//! How a frame goes on behind a terminator (LangRef, "Terminator Instructions", "`phi` Instruction").
ghost use Rattle.std.specs.Prelude.{◌≡◌, ℕ, [], Option, Some, IfOk, OnErr};
ghost use Rattle.ir_machine.specs.declared.memory.Memory.{Memory};
ghost use Rattle.ir_interp.specs.Code.{block_of, position};
ghost use Rattle.ir_interp.specs.Scenes.{GoesOn, HasDone, HasJumped, Plays, Scene};

use crate::code::{Block, Code};
use crate::frame::{Did, Frame};
use crate::{Left, end_slots, leave};
use ir_machine::{Memory, Scalar};
use ir_tree::Cause;
use std::alloc::AllocError;

/// Goes to the block at a position, and takes its phis on the edge from the block of a number; false
/// where there is no such block. `values` is room to work in. Where memory is refused the registers
/// read what they read, and the frame is where it was.
fn jump(
    frame: &mut Frame,
    code: &Code,
    target: u32,
    from: u32,
    values: &mut Vec<Scalar>,
) -> Result<bool, AllocError>
    ensures ok { IfOk result (λ there. (z : Scene) (m : Memory) (t : ℕ) → Plays z code.now m frame.old → from ≡ z.frame.block → target ≡ position z.frame.function.blocks t → HasJumped z m frame.old frame.new t there) }
    ensures err { OnErr result ((z : Scene) (m : Memory) → Plays z code.now m frame.old → GoesOn z m m frame.new z.memory z.frame) }
{
    match code.block(frame.function, target as usize) {
        Some(block) => {
            frame.registers.enter(from, &block.phis, values)?;
            frame.block = target as usize;
            frame.line = 0;
            Ok(true)
        }
        None => Ok(false),
    }
}

/// Goes by the terminator of the block that the frame is in. Where memory is refused the frame stands for
/// what it stood for.
pub(crate) fn leave_block(
    frame: &mut Frame,
    code: &Code,
    block: &Block,
    memory: &mut Memory,
    values: &mut Vec<Scalar>,
) -> Result<Did, AllocError>
    ensures ok { IfOk result (λ did. (z : Scene) (choice : ℕ) (given : Option (Option ℕ)) → Plays z code.now memory.old frame.old → block_of code.now frame.old.function frame.old.block ≡ Some block.now → z.frame.rest ≡ [] → HasDone z choice given memory.old memory.new frame.old frame.new did) }
    ensures err { OnErr result ((z : Scene) → Plays z code.now memory.old frame.old → GoesOn z memory.old memory.new frame.new z.memory z.frame) }
{
    let now: &Frame = frame;
    match leave(&now.registers, &block.exit) {
        Left::Returned(answer) => {
            let live = memory.blocks.len();
            end_slots(memory, live.saturating_sub(frame.base));
            Ok(Did::Gives(answer))
        }
        Left::To(target) => {
            let there = jump(frame, code, target, block.number, values)?;
            if there {
                Ok(Did::Went)
            } else {
                Ok(Did::Undefined(Cause::UnreachableReached))
            }
        }
        Left::Undefined(cause) => Ok(Did::Undefined(cause)),
    }
}
