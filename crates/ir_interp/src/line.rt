//! Lines, one at a time: what those that call nothing make of registers and memory.
ghost use Rattle.std.specs.Prelude.{◌≡◌, ◌≤◌, ℕ, List, Option, IfOk, OnOk, OnErr};
ghost use Rattle.ir_tree.specs.declared.operand.Symbol.{Symbol};
ghost use Rattle.ir_meaning.specs.Execute as execute;
ghost use Rattle.ir_meaning.specs.Frame.{Locals};
ghost use Rattle.ir_meaning.specs.Memory.{Memory as MeantMemory};
ghost use Rattle.ir_machine.specs.Marks.{HasWidth};
ghost use Rattle.ir_machine.specs.Memories.{numbers_of};
ghost use Rattle.ir_machine.specs.Names.{AreDistinct};
ghost use Rattle.ir_interp.specs.Locals.{AreLocals, IsKnown, IsMemory, register_at, source_meant};
ghost use Rattle.ir_interp.specs.Ran.{IsRan, StandFor};
ghost use Rattle.ir_interp.specs.Tasks.{CanCompute, CanRun, IsComputeKnown, IsTaskKnown, compute_meant};
ghost use Rattle.ir_interp.specs.Lines.{HasNumbers, HasRanNumbers, IsReached};

use crate::ran::Ran;
use crate::registers::Registers;
use crate::source::Source;
use crate::task::{Compute, Task};
use ir_machine::{Base, Memory, Outcome, Pointer, Scalar, Stored};
use ir_tree::Reg;
use std::alloc::{AllocError, Global};

/// A task, and the register that takes its result.
#[derive(Drop)]
pub struct CodeLine<'a> {
    pub local: Option<u32>,
    pub task: Task<'a>,
}

/// What a line came to: it ran, or it is a call, which nothing was done of.
#[derive(Clone, Copy)]
pub enum Reached {
    Ran(Ran),
    Call,
}

/// Runs an instruction that changes no memory. Where memory is refused the registers read the same.
fn compute(
    registers: &mut Registers,
    memory: &Memory,
    local: Option<u32>,
    task: &Compute,
    choice: u64,
) -> Result<Ran, AllocError>
    requires { CanCompute task.now }
    ensures ok { IfOk result (λ ran. (names : List Symbol) (meaning : MeantMemory) (locals : Locals) → AreDistinct names → IsMemory names memory.now meaning → AreLocals names memory.now meaning registers.old locals → IsComputeKnown names memory.now meaning task.now → IsRan names memory.now meaning locals local choice (compute_meant names locals task.now) memory.now registers.new ran) }
    ensures numbers { IfOk result (λ ran. HasRanNumbers memory.now memory.now ran) }
    ensures err { OnErr result ((x : ℕ) → register_at registers.new x ≡ register_at registers.old x) }
{
    registers.reserve_result(local)?;
    match registers.perform(memory, task, choice) {
        Outcome::Value(value) => {
            registers.bind(local, value);
            Ok(Ran::Went { reserved: false })
        }
        Outcome::Undefined(cause) => Ok(Ran::Undefined(cause)),
        Outcome::Uninit => Ok(Ran::Uninit),
    }
}

/// Makes a stack block (LangRef, "`alloca` Instruction"). Where memory is refused the registers read the
/// same, and no block is made.
fn reserve_block(
    alloc: Global,
    registers: &mut Registers,
    memory: &mut Memory,
    local: Option<u32>,
    size: usize,
    align: u64,
) -> Result<Ran, AllocError>
    ensures ok { IfOk result (λ ran. (names : List Symbol) (meaning : MeantMemory) (locals : Locals) (choice : ℕ) → IsMemory names memory.old meaning → AreLocals names memory.old meaning registers.old locals → IsRan names memory.old meaning locals local choice (execute.ToReserve size align) memory.new registers.new ran) }
    ensures numbers { IfOk result (λ ran. (names : List Symbol) (meaning : MeantMemory) → IsMemory names memory.old meaning → HasRanNumbers memory.old memory.new ran) }
    ensures err { OnErr result ((names : List Symbol) (meaning : MeantMemory) (locals : Locals) → IsMemory names memory.old meaning → AreLocals names memory.old meaning registers.old locals → StandFor names memory.old meaning memory.new registers.new meaning locals) }
    ensures refused { OnErr result (numbers_of memory.new.blocks.items ≡ numbers_of memory.old.blocks.items) }
{
    registers.reserve_result(local)?;
    let handle = memory.reserve(alloc, size, align)?;
    registers.bind(
        local,
        Scalar::Pointer(Pointer {
            base: Base::Block(handle),
            offset: 0,
        }),
    );
    Ok(Ran::Went { reserved: true })
}

/// Stores a value at an address (LangRef, "`store` Instruction"). Where memory is refused, memory stands
/// for what it stood for.
fn store(
    registers: &Registers,
    memory: &mut Memory,
    reg: Reg,
    value: Source,
    address: Source,
    align: u64,
) -> Result<Ran, AllocError>
    requires width { HasWidth reg }
    requires aligned { 1 ≤ align }
    ensures ok { IfOk result (λ ran. (names : List Symbol) (meaning : MeantMemory) (locals : Locals) (local : Option ℕ) (choice : ℕ) → IsMemory names memory.old meaning → AreLocals names memory.old meaning registers.now locals → IsKnown names memory.old meaning value → IsKnown names memory.old meaning address → IsRan names memory.old meaning locals local choice (execute.ToStore reg (source_meant names locals value) (source_meant names locals address) align) memory.new registers.now ran) }
    ensures numbers { IfOk result (λ ran. HasRanNumbers memory.old memory.new ran) }
    ensures err { OnErr result ((names : List Symbol) (meaning : MeantMemory) (locals : Locals) → IsMemory names memory.old meaning → AreLocals names memory.old meaning registers.now locals → IsKnown names memory.old meaning value → StandFor names memory.old meaning memory.new registers.now meaning locals) }
    ensures refused { OnErr result (numbers_of memory.new.blocks.items ≡ numbers_of memory.old.blocks.items) }
{
    let value = registers.value(value);
    let address = registers.value(address);
    let stored = memory.store(reg, value, address, align)?;
    match stored {
        Stored::Done => Ok(Ran::Went { reserved: false }),
        Stored::Undefined(cause) => Ok(Ran::Undefined(cause)),
    }
}

/// Runs a line that is no call; of a call nothing is done. Where memory is refused, registers and memory
/// stand for what they stood for.
pub fn run_line(
    alloc: Global,
    registers: &mut Registers,
    memory: &mut Memory,
    line: &CodeLine,
    choice: u64,
) -> Result<Reached, AllocError>
    requires { CanRun line.now.task }
    ensures ok { IfOk result (λ reached. (names : List Symbol) (meaning : MeantMemory) (locals : Locals) → AreDistinct names → IsMemory names memory.old meaning → AreLocals names memory.old meaning registers.old locals → IsTaskKnown names memory.old meaning line.now.task → IsReached names memory.old meaning locals line.now choice memory.new registers.new reached) }
    ensures numbers { IfOk result (λ reached. (names : List Symbol) (meaning : MeantMemory) → IsMemory names memory.old meaning → HasNumbers memory.old memory.new reached) }
    ensures err { OnErr result ((names : List Symbol) (meaning : MeantMemory) (locals : Locals) → IsMemory names memory.old meaning → AreLocals names memory.old meaning registers.old locals → IsTaskKnown names memory.old meaning line.now.task → StandFor names memory.old meaning memory.new registers.new meaning locals) }
    ensures refused { OnErr result (numbers_of memory.new.blocks.items ≡ numbers_of memory.old.blocks.items) }
    ensures called { IfOk result (λ reached. reached ≡ Reached.Call → (memory.new ≡ memory.old) × (registers.new ≡ registers.old)) }
{
    match &line.task {
        Task::Compute(task) => {
            let ran = compute(registers, memory, line.local, task, choice)?;
            Ok(Reached::Ran(ran))
        }
        Task::Reserve { size, align } => {
            let ran = reserve_block(alloc, registers, memory, line.local, *size, *align)?;
            Ok(Reached::Ran(ran))
        }
        Task::Store {
            reg,
            value,
            address,
            align,
        } => {
            let ran = store(registers, memory, *reg, *value, *address, *align)?;
            Ok(Reached::Ran(ran))
        }
        Task::Call { .. } => Ok(Reached::Call),
    }
}
