//! How a frame calls (LangRef, "`call` Instruction").
ghost use Rattle.std.specs.Prelude.{◌≡◌, ◌<◌, ◌∷◌, ℕ, Option, List, length, OnOk, IfOk, OnErr};
ghost use Rattle.ir_tree.specs.declared.instr.Line.{Line as MeantLine};
ghost use Rattle.ir_meaning.specs.Execute.{Asked, puts_char};
ghost use Rattle.ir_machine.specs.Meant.{symbol_at};
ghost use Rattle.ir_machine.specs.declared.memory.Memory.{Memory};
ghost use Rattle.ir_interp.specs.Locals.{AreKnown};
ghost use Rattle.ir_interp.specs.Tasks.{values_meant};
ghost use Rattle.ir_interp.specs.Lines.{IsCall};
ghost use Rattle.ir_interp.specs.Scenes.{GoesOn, HasDone, Hears, IsNext, Plays, Scene, TakesSo, Works, with_result};
ghost use Rattle.ir_interp.specs.declared.code.Code.{Code};

use crate::code::Code;
use crate::frame::{Did, Frame};
use crate::open::open;
use crate::{CodeLine, Host, Resolved, Task, Typed, arguments, put_char, resolve};
use ir_machine::{Memory, Scalar};
use ir_tree::Cause;
use std::alloc::{AllocError, Global};

/// Binds the number that the next line gives, and goes on behind it.
fn bind_number(frame: &mut Frame, local: Option<u32>, number: u64) -> Result<(), AllocError>
    requires { frame.old.line < usize.MAX }
    ensures ok { OnOk result ((z : Scene) (code : Code) (m : Memory) (l : MeantLine) (rest : List MeantLine) → Plays z code m frame.old → z.frame.rest ≡ l ∷ rest → GoesOn z m m frame.new z.memory (with_result z.frame rest local number)) }
    ensures err { OnErr result ((z : Scene) (code : Code) (m : Memory) → Plays z code m frame.old → GoesOn z m m frame.new z.memory z.frame) }
{
    frame.registers.reserve_result(local)?;
    frame.registers.bind(local, Scalar::Number(number));
    frame.line += 1;
    Ok(())
}

/// Calls the function of an index.
fn call_function(
    alloc: Global,
    frame: &mut Frame,
    code: &Code,
    memory: &Memory,
    local: Option<u32>,
    index: u32,
    passed: &[Typed],
) -> Result<Did, AllocError>
    requires { frame.old.line < usize.MAX }
    ensures ok { IfOk result (λ did. (z : Scene) (choice : ℕ) (given : Option (Option ℕ)) (l : MeantLine) (rest : List MeantLine) → Plays z code.now memory.now frame.old → index < length z.names → z.frame.rest ≡ l ∷ rest → AreKnown z.names memory.now z.memory passed.now → TakesSo z.program (symbol_at z.names index) (length passed.now) → Works z choice given local rest (λ place. Asked (symbol_at z.names index) (values_meant z.names z.frame.locals passed.now)) → HasDone z choice given memory.now memory.now frame.old frame.new did) }
    ensures err { OnErr result ((z : Scene) → Plays z code.now memory.now frame.old → GoesOn z memory.now memory.now frame.new z.memory z.frame) }
{
    let now: &Frame = frame;
    let mut values = arguments(alloc, &now.registers, passed)?;
    match open(alloc, code, index, &mut values, memory.blocks.len())? {
        Some(callee) => {
            frame.registers.reserve_result(local)?;
            frame.line += 1;
            frame.awaits = local;
            Ok(Did::Enters(callee))
        }
        None => Ok(Did::Undefined(Cause::CallOfNoFunction)),
    }
}

/// Calls `putchar`.
fn call_putchar(
    alloc: Global,
    frame: &mut Frame,
    local: Option<u32>,
    passed: &[Typed],
) -> Result<Did, AllocError>
    requires { frame.old.line < usize.MAX }
    ensures ok { IfOk result (λ did. (z : Scene) (code : Code) (m : Memory) (choice : ℕ) (given : Option (Option ℕ)) (l : MeantLine) (rest : List MeantLine) → Plays z code m frame.old → z.frame.rest ≡ l ∷ rest → AreKnown z.names m z.memory passed.now → Works z choice given local rest (λ place. puts_char z.memory place (values_meant z.names z.frame.locals passed.now)) → HasDone z choice given m m frame.old frame.new did) }
    ensures err { OnErr result ((z : Scene) (code : Code) (m : Memory) → Plays z code m frame.old → GoesOn z m m frame.new z.memory z.frame) }
{
    let now: &Frame = frame;
    let values = arguments(alloc, &now.registers, passed)?;
    match put_char(&values) {
        Some(byte) => {
            bind_number(frame, local, u64::from(byte))?;
            Ok(Did::Wrote(byte))
        }
        None => Ok(Did::Undefined(Cause::PoisonArgument)),
    }
}

/// Calls `getchar`, which answers the byte that is given, or -1 at the end of the input.
fn call_getchar(
    frame: &mut Frame,
    local: Option<u32>,
    given: Option<Option<u8>>,
) -> Result<Did, AllocError>
    requires { frame.old.line < usize.MAX }
    ensures ok { IfOk result (λ did. (z : Scene) (code : Code) (m : Memory) (choice : ℕ) (l : MeantLine) (rest : List MeantLine) → Plays z code m frame.old → z.frame.rest ≡ l ∷ rest → Hears z local rest → HasDone z choice given m m frame.old frame.new did) }
    ensures err { OnErr result ((z : Scene) (code : Code) (m : Memory) → Plays z code m frame.old → GoesOn z m m frame.new z.memory z.frame) }
{
    match given {
        None => Ok(Did::Wants),
        Some(Some(byte)) => {
            bind_number(frame, local, u64::from(byte))?;
            Ok(Did::Went)
        }
        Some(None) => {
            bind_number(frame, local, 4_294_967_295)?;
            Ok(Did::Went)
        }
    }
}

/// Runs a line that is a call.
pub(crate) fn run_call(
    alloc: Global,
    frame: &mut Frame,
    code: &Code,
    memory: &Memory,
    line: &CodeLine,
    given: Option<Option<u8>>,
) -> Result<Did, AllocError>
    requires { frame.old.line < usize.MAX }
    ensures ok { IfOk result (λ did. (z : Scene) (choice : ℕ) (l : MeantLine) (rest : List MeantLine) → Plays z code.now memory.now frame.old → IsNext z memory.now line.now l rest → IsCall line.now.task → HasDone z choice given memory.now memory.now frame.old frame.new did) }
    ensures err { OnErr result ((z : Scene) → Plays z code.now memory.now frame.old → GoesOn z memory.now memory.now frame.new z.memory z.frame) }
{
    let Task::Call {
        result,
        callee,
        arguments,
    } = &line.task
    else {
        return Ok(Did::Uninit);
    };
    match resolve(
        &code.entities,
        &frame.registers,
        *result,
        *callee,
        arguments,
    ) {
        Resolved::Function(index) => {
            call_function(alloc, frame, code, memory, line.local, index, arguments)
        }
        Resolved::Host(Host::PutChar) => call_putchar(alloc, frame, line.local, arguments),
        Resolved::Host(Host::GetChar) => call_getchar(frame, line.local, given),
        Resolved::Undefined(cause) => Ok(Did::Undefined(cause)),
    }
}
