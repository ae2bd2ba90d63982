//! Declarations of values that stand in other modules.
ghost use Rattle.std.specs.Prelude.{◌≡◌, IfOk};
ghost use Rattle.ir_tree.specs.declared.module.GlobalValue.TheVariants as global;
ghost use Rattle.lto_task.specs.Declarations.{DeclarationsAreSound, declaration_of, numbered_from};

use ir_tree::{Duplicate, Function, GlobalValue, Linkage, Param, Rows, Variable};
use std::alloc::{AllocError, Global};

/// Parameters of these types, numbered from 0 on.
fn numbered(alloc: Global, params: &[Param]) -> Result<Rows<Param>, AllocError>
    ensures { IfOk result (λ new. new ≡ numbered_from 0 params.now) }
{
    let mut new = Rows::new(alloc);
    let mut local: u32 = 0;
    for param in params {
        new.push(Param {
            local,
            reg: param.reg,
        })?;
        let Some(next) = local.checked_add(1) else {
            return Err(AllocError);
        };
        local = next;
    }
    Ok(new)
}

fn declared_variable(alloc: Global, variable: &Variable) -> Result<Variable, AllocError>
    ensures { IfOk result (λ new. global.Variable new ≡ declaration_of (global.Variable variable.now)) }
{
    let symbol = variable.symbol.duplicate(alloc)?;
    let shape = variable.shape.duplicate(alloc)?;
    Ok(Variable {
        symbol,
        linkage: Linkage::External,
        constant: variable.constant,
        shape,
        init: None,
        align: variable.align,
    })
}

fn declared_function(alloc: Global, function: &Function) -> Result<Function, AllocError>
    ensures { IfOk result (λ new. global.Function new ≡ declaration_of (global.Function function.now)) }
{
    let symbol = function.symbol.duplicate(alloc)?;
    let params = numbered(alloc, function.params.as_slice())?;
    Ok(Function {
        symbol,
        linkage: Linkage::External,
        result: function.result,
        params,
        noinline: false,
        optnone: false,
        blocks: Rows::new(alloc),
    })
}

/// The declaration of a value: its symbol and its types, with parameters numbered from 0 on. It has no linkage of its own and no
/// attributes, and neither a body nor an initialiser.
///
/// Beside want of memory, a function of `2^32` parameters or more is refused as too big. What is kept is copied once; a body or an
/// initialiser is not looked into.
pub fn declaration_of(alloc: Global, value: &GlobalValue) -> Result<GlobalValue, AllocError>
    ensures { IfOk result (λ declared. declared ≡ declaration_of value.now) }
{
    match value {
        GlobalValue::Variable(variable) => {
            let declared = declared_variable(alloc, variable)?;
            Ok(GlobalValue::Variable(declared))
        }
        GlobalValue::Function(function) => {
            let declared = declared_function(alloc, function)?;
            Ok(GlobalValue::Function(declared))
        }
    }
}

/// The declaration of a formed value is formed, and sound.
pub fn declarations_are_sound()
    ensures { DeclarationsAreSound }
{}
