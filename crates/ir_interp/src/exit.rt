//! Terminators (LangRef, "Terminator Instructions").
ghost use Rattle.std.specs.Prelude.{◌≡◌, List};
ghost use Rattle.ir_tree.specs.declared.operand.Symbol.{Symbol};
ghost use Rattle.ir_meaning.specs.Frame.{Locals};
ghost use Rattle.ir_meaning.specs.Memory.{Memory as MeantMemory};
ghost use Rattle.ir_machine.specs.declared.memory.Memory.{Memory};
ghost use Rattle.ir_interp.specs.Locals.{AreLocals};
ghost use Rattle.ir_interp.specs.Exits.{IsBranch, IsExitKnown, IsLeft, IsSwitch, case_target, exit_meant};

use crate::bits::bits_of;
use crate::registers::Registers;
use crate::source::Source;
use ir_machine::Scalar;
use ir_tree::Cause;

/// A case of a `switch`: a number, and the position of the block that it leads to.
#[derive(Clone, Copy)]
pub struct Case {
    pub bits: u64,
    pub target: u32,
}

/// How a block ends: a terminator over sources, with the positions of blocks in their function.
#[derive(Drop)]
pub enum Exit {
    Return(Option<Source>),
    Jump(u32),
    Branch {
        condition: Source,
        if_true: u32,
        if_false: u32,
    },
    /// On a number of `width` bits.
    Switch {
        width: u8,
        value: Source,
        default: u32,
        cases: Vec<Case>,
    },
    Unreachable,
}

/// Where a terminator leads: out of the function with an answer or none, to a block, or nowhere.
#[derive(Clone, Copy)]
pub enum Left {
    Returned(Option<Scalar>),
    To(u32),
    Undefined(Cause),
}

/// The target of the first case of a number, or else the default.
fn target_of(cases: &[Case], default: u32, number: u64) -> u32
    ensures { result ≡ case_target cases.now default number }
{
    for case in cases {
        if case.bits == number {
            return case.target;
        }
    }
    default
}

/// Where a `br` on a value leads.
fn branch(value: Scalar, if_true: u32, if_false: u32) -> Left
    ensures { IsBranch if_true if_false value result }
{
    match bits_of(1, value) {
        Some(0) => Left::To(if_false),
        Some(_) => Left::To(if_true),
        None => Left::Undefined(Cause::BranchOnPoison),
    }
}

/// Where a `switch` on a value leads.
fn switch(width: u8, value: Scalar, default: u32, cases: &[Case]) -> Left
    ensures { IsSwitch width default cases.now value result }
{
    match bits_of(width, value) {
        Some(number) => Left::To(target_of(cases, default, number)),
        None => Left::Undefined(Cause::BranchOnPoison),
    }
}

/// Where a terminator leads.
pub fn leave(registers: &Registers, exit: &Exit) -> Left
    ensures { (names : List Symbol) (m : Memory) (memory : MeantMemory) (locals : Locals) → AreLocals names m memory registers.now locals → IsExitKnown names m memory exit.now → IsLeft names m memory (exit_meant names locals exit.now) result }
{
    match exit {
        Exit::Return(None) => Left::Returned(None),
        Exit::Return(Some(source)) => Left::Returned(Some(registers.value(*source))),
        Exit::Jump(target) => Left::To(*target),
        Exit::Branch {
            condition,
            if_true,
            if_false,
        } => branch(registers.value(*condition), *if_true, *if_false),
        Exit::Switch {
            width,
            value,
            default,
            cases,
        } => switch(*width, registers.value(*value), *default, cases),
        Exit::Unreachable => Left::Undefined(Cause::UnreachableReached),
    }
}
