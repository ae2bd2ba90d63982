//! What symbols are for calls (LangRef, "Module Structure", "Functions").
ghost use Rattle.std.specs.Prelude.{◌≡◌, IfOk};
ghost use Rattle.std.specs.List.{AllZip};
ghost use Rattle.ir_interp.specs.Calls.{IsKind};
ghost use Rattle.ir_meaning.specs.Programs.{regs_of, undefined_kind};
ghost use Rattle.machine_code.specs.Programs.{IsEntityFor, host_kind};

use ir_interp::{Entity, Host};
use ir_meaning::{defined_blocks, defined_init};
use ir_tree::{GlobalValue, Param, Reg, Symbol};
use std::alloc::{AllocError, Global};

/// The function of the outside that an undefined symbol names, if it names one.
fn host(symbol: &Symbol) -> Option<Host>
    ensures { host_kind result ≡ undefined_kind symbol.now.home symbol.now.name }
{
    match symbol.home {
        Some(_) => None,
        None => {
            if symbol.name.equals(b"putchar") {
                Some(Host::PutChar)
            } else if symbol.name.equals(b"getchar") {
                Some(Host::GetChar)
            } else {
                None
            }
        }
    }
}

/// What an undefined symbol is for calls.
fn undefined_entity(symbol: &Symbol) -> Entity
    ensures { IsKind result (undefined_kind symbol.now.home symbol.now.name) }
{
    match host(symbol) {
        Some(host) => Entity::Host(host),
        None => Entity::Other,
    }
}

/// The types of parameters.
fn param_regs(alloc: Global, params: &[Param]) -> Result<Vec<Reg>, AllocError>
    ensures { IfOk result (λ regs. regs.items ≡ regs_of params.now) }
{
    let mut regs = Vec::with_capacity(alloc, params.len())?;
    for param in params {
        regs.push(param.reg)?;
    }
    Ok(regs)
}

/// What a symbol is for calls: a function that is defined, one of the outside, or nothing that is called.
fn entity(alloc: Global, global: &GlobalValue) -> Result<Entity, AllocError>
    ensures { IfOk result (λ e. IsEntityFor global.now e) }
{
    match global {
        GlobalValue::Function(function) => {
            let count = defined_blocks(function).len();
            if count == 0 {
                Ok(undefined_entity(&function.symbol))
            } else {
                let params = param_regs(alloc, function.params.as_slice())?;
                Ok(Entity::Function {
                    params,
                    result: function.result,
                })
            }
        }
        GlobalValue::Variable(variable) => match defined_init(variable) {
            Some(_) => Ok(Entity::Other),
            None => Ok(undefined_entity(&variable.symbol)),
        },
    }
}

/// What each symbol is for calls, in the order of the global values.
pub(crate) fn entities(alloc: Global, globals: &[GlobalValue]) -> Result<Vec<Entity>, AllocError>
    ensures { IfOk result (λ all. AllZip IsEntityFor globals.now all.items) }
{
    let mut all = Vec::with_capacity(alloc, globals.len())?;
    for global in globals {
        let made = entity(alloc, global)?;
        all.push(made)?;
    }
    Ok(all)
}
