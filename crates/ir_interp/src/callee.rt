//! What calls ask for (LangRef, "`call` Instruction").
ghost use Rattle.std.specs.Prelude.{◌≡◌, ◌<◌, ℕ, List, length, IfOk};
ghost use Rattle.ir_tree.specs.declared.operand.Symbol.{Symbol};
ghost use Rattle.ir_meaning.specs.Execute.{calls_value, host_params, reg_eq, regs_eq, result_eq};
ghost use Rattle.ir_meaning.specs.Frame.{Locals, Signature};
ghost use Rattle.ir_meaning.specs.Memory.{Memory as MeantMemory};
ghost use Rattle.ir_meaning.specs.declared.value.Value.{Value as MeantValue};
ghost use Rattle.ir_machine.specs.declared.memory.Memory.{Memory};
ghost use Rattle.ir_interp.specs.Locals.{AreKnown, AreLocals, IsKnown, source_meant};
ghost use Rattle.ir_interp.specs.Tasks.{regs_of, values_meant};
ghost use Rattle.ir_interp.specs.Calls.{AreKinds, AreValid, IsAmong, IsResolved, all_meant, call_effect, host_meant};

use crate::host::Host;
use crate::registers::Registers;
use crate::source::{Source, Typed};
use ir_machine::{Base, Scalar};
use ir_tree::{Cause, Reg};
use std::alloc::{AllocError, Global};

/// What a symbol is: a function of a type, a host function, or nothing that is called.
#[derive(Drop)]
pub enum Entity {
    Function {
        params: Vec<Reg>,
        result: Option<Reg>,
    },
    Host(Host),
    Other,
}

/// What a call asks for: the function of an index in the table of symbols, or a host function.
#[derive(Clone, Copy)]
pub enum Resolved {
    Function(u32),
    Host(Host),
    Undefined(Cause),
}

/// Whether two types are one.
fn same_type(left: Reg, right: Reg) -> bool
    ensures { result ≡ reg_eq left right }
{
    match (left, right) {
        (Reg::Int(width), Reg::Int(other)) => width == other,
        (Reg::Ptr, Reg::Ptr) => true,
        _ => false,
    }
}

/// Whether two results have one type.
fn same_result(left: Option<Reg>, right: Option<Reg>) -> bool
    ensures { result ≡ result_eq left right }
{
    match (left, right) {
        (None, None) => true,
        (Some(left), Some(right)) => same_type(left, right),
        _ => false,
    }
}

/// Whether arguments have these types.
fn are_typed(params: &[Reg], arguments: &[Typed]) -> bool
    ensures { result ≡ regs_eq params.now (regs_of arguments.now) }
{
    match params {
        [] => match arguments {
            [] => true,
            [_, ..] => false,
        },
        [param, params @ ..] => match arguments {
            [] => false,
            [argument, arguments @ ..] => {
                if same_type(*param, argument.reg) {
                    are_typed(params, arguments)
                } else {
                    false
                }
            }
        },
    }
}

/// Whether arguments have the types of a host function's parameters.
fn fits_host(host: Host, arguments: &[Typed]) -> bool
    ensures { result ≡ regs_eq (host_params (host_meant host)) (regs_of arguments.now) }
{
    match host {
        Host::PutChar => are_typed(&[Reg::Int(32)], arguments),
        Host::GetChar => are_typed(&[], arguments),
    }
}

/// What a call of a symbol asks for.
fn resolve_entity(
    index: u32,
    entity: &Entity,
    result_type: Option<Reg>,
    arguments: &[Typed],
) -> Resolved
    ensures effect { IsResolved index entity.now result_type (regs_of arguments.now) result }
    ensures among { (n : ℕ) → index < n → IsAmong n result }
{
    match entity {
        Entity::Function { params, result } => {
            if are_typed(params, arguments) && same_result(*result, result_type) {
                Resolved::Function(index)
            } else {
                Resolved::Undefined(Cause::CallOfAnotherType)
            }
        }
        Entity::Host(host) => {
            if fits_host(*host, arguments) && same_result(Some(Reg::Int(32)), result_type) {
                Resolved::Host(*host)
            } else {
                Resolved::Undefined(Cause::CallOfAnotherType)
            }
        }
        Entity::Other => Resolved::Undefined(Cause::CallOfNoFunction),
    }
}

/// What a call asks for, by the table of what each symbol is.
pub fn resolve(
    entities: &[Entity],
    registers: &Registers,
    result_type: Option<Reg>,
    callee: Source,
    arguments: &[Typed],
) -> Resolved
    ensures effect { (names : List Symbol) (m : Memory) (memory : MeantMemory) (locals : Locals) (sig : Signature) (input : List ℕ) (place : ℕ) (values : List MeantValue) → AreKinds names sig entities.now → AreLocals names m memory registers.now locals → IsKnown names m memory callee → calls_value sig input memory place result_type (regs_of arguments.now) values (source_meant names locals callee) ≡ call_effect names input memory place values result }
    ensures among { IsAmong (length entities.now) result }
{
    let Scalar::Pointer(pointer) = registers.value(callee) else {
        return Resolved::Undefined(Cause::CallOfNoFunction);
    };
    let Base::Function(index) = pointer.base else {
        return Resolved::Undefined(Cause::CallOfNoFunction);
    };
    if pointer.offset != 0 {
        return Resolved::Undefined(Cause::CallOfNoFunction);
    }
    match entities.get(index as usize) {
        Some(entity) => resolve_entity(index, entity, result_type, arguments),
        None => Resolved::Undefined(Cause::CallOfNoFunction),
    }
}

/// The values of a call's arguments.
pub fn arguments(
    alloc: Global,
    registers: &Registers,
    arguments: &[Typed],
) -> Result<Vec<Scalar>, AllocError>
    ensures { IfOk result (λ values. (names : List Symbol) (m : Memory) (memory : MeantMemory) (locals : Locals) → AreLocals names m memory registers.now locals → AreKnown names m memory arguments.now → (all_meant names values.items ≡ values_meant names locals arguments.now) × AreValid names m memory values.items) }
{
    let mut values = Vec::with_capacity(alloc, arguments.len())?;
    for argument in arguments {
        values.push(registers.value(argument.source))?;
    }
    Ok(values)
}
