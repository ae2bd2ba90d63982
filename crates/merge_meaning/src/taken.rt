//! Global values in which names are the symbols that they stand for in a module's scope.
ghost use Rattle.std.specs.Prelude.{◌≡◌, IfOk, map, option_map};
ghost use Rattle.merge_meaning.specs.Globals.{function_under, global_under, initial_under, variable_under};
ghost use Rattle.merge_meaning.specs.Kept.{head_under, part_under};
ghost use Rattle.merge_meaning.specs.Scopes.{names_by};

use crate::scope::Scope;
use ir_edit::{Edit, edited};
use ir_tree::{Duplicate, Function, GlobalValue, Init, InitHead, InitPart, Rows, Variable};
use std::alloc::{AllocError, Global};

fn head(alloc: Global, scope: &Scope, head: &InitHead) -> Result<InitHead, AllocError>
    ensures { IfOk result (λ h. h ≡ head_under (names_by scope.now) head.now) }
{
    match head {
        InitHead::Plain(operand) => {
            let operand = scope.operand(alloc, operand)?;
            Ok(InitHead::Plain(operand))
        }
        _ => head.duplicate(alloc),
    }
}

fn part(alloc: Global, scope: &Scope, part: &InitPart) -> Result<InitPart, AllocError>
    ensures { IfOk result (λ p. p ≡ part_under (names_by scope.now) part.now) }
{
    match part {
        InitPart::Typed { shape, head: old } => {
            let shape = shape.duplicate(alloc)?;
            let head = head(alloc, scope, old)?;
            Ok(InitPart::Typed { shape, head })
        }
        InitPart::End => Ok(InitPart::End),
    }
}

fn parts(alloc: Global, scope: &Scope, parts: &[InitPart]) -> Result<Rows<InitPart>, AllocError>
    ensures { IfOk result (λ rows. rows ≡ map (part_under (names_by scope.now)) parts.now) }
{
    let mut rows = Rows::new(alloc);
    for old in parts {
        rows.push(part(alloc, scope, old)?)?;
    }
    Ok(rows)
}

fn initial(alloc: Global, scope: &Scope, init: &Init) -> Result<Init, AllocError>
    ensures { IfOk result (λ v. v ≡ initial_under (names_by scope.now) init.now) }
{
    let (old_root, old_parts) = init.flat();
    let root = head(alloc, scope, old_root)?;
    let parts = parts(alloc, scope, old_parts)?;
    Ok(Init::of(root, parts))
}

fn maybe_initial(
    alloc: Global,
    scope: &Scope,
    init: &Option<Init>,
) -> Result<Option<Init>, AllocError>
    ensures { IfOk result (λ v. v ≡ option_map (initial_under (names_by scope.now)) init.now) }
{
    match init {
        None => Ok(None),
        Some(init) => {
            let init = initial(alloc, scope, init)?;
            Ok(Some(init))
        }
    }
}

fn variable(alloc: Global, scope: &Scope, old: &Variable) -> Result<Variable, AllocError>
    ensures { IfOk result (λ v. v ≡ variable_under (names_by scope.now) old.now) }
{
    let symbol = scope.symbol(alloc, &old.symbol)?;
    let shape = old.shape.duplicate(alloc)?;
    let init = maybe_initial(alloc, scope, &old.init)?;
    Ok(Variable {
        symbol,
        linkage: old.linkage,
        constant: old.constant,
        shape,
        init,
        align: old.align,
    })
}

fn function(alloc: Global, scope: &Scope, old: &Function) -> Result<Function, AllocError>
    ensures { IfOk result (λ f. f ≡ function_under (names_by scope.now) old.now) }
{
    let changed = edited(alloc, scope, old)?;
    let symbol = scope.symbol(alloc, &old.symbol)?;
    Ok(Function {
        symbol,
        linkage: changed.linkage,
        result: changed.result,
        params: changed.params,
        noinline: changed.noinline,
        optnone: changed.optnone,
        blocks: changed.blocks,
    })
}

/// A global value of a module with each reference, and its own name, taken to the symbol that it stands for.
pub(crate) fn taken(
    alloc: Global,
    scope: &Scope,
    global: &GlobalValue,
) -> Result<GlobalValue, AllocError>
    ensures { IfOk result (λ g. g ≡ global_under (names_by scope.now) global.now) }
{
    match global {
        GlobalValue::Variable(old) => {
            let new = variable(alloc, scope, old)?;
            Ok(GlobalValue::Variable(new))
        }
        GlobalValue::Function(old) => {
            let new = function(alloc, scope, old)?;
            Ok(GlobalValue::Function(new))
        }
    }
}
