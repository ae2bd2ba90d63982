//! The summaries of a module.
ghost use Rattle.std.specs.Prelude.{◌≡◌, ◌∷◌, List, IfOk, option_map, Some, None};
ghost use Rattle.ir_tree.specs.declared.block.Block.{Block};
ghost use Rattle.ir_summary.specs.Summaries.{bodied, function_summary, summaries, summary, variable_summary};

use crate::bodies::body_names;
use crate::callees::body_callees;
use crate::count::count_of;
use crate::initials::initial_names;
use crate::names::once;
use crate::summary::Summary;
use ir_tree::{Duplicate, Function, GlobalValue, Rows, Variable, Verified};
use std::alloc::{AllocError, Global};

fn variable_summary(alloc: Global, variable: &Variable) -> Result<Summary, AllocError>
    ensures { IfOk result (λ s. s ≡ variable_summary variable.now) }
{
    let names = initial_names(alloc, variable)?;
    let name = variable.symbol.name.duplicate(alloc)?;
    let refs = once(alloc, &names)?;
    Ok(Summary {
        name,
        linkage: variable.linkage,
        count: None,
        noinline: false,
        optnone: false,
        calls: Rows::new(alloc),
        refs,
    })
}

pub(crate) fn function_summary(alloc: Global, function: &Function) -> Result<Summary, AllocError>
    ensures { IfOk result (λ s. s ≡ function_summary function.now) }
{
    let count = count_of(function)?;
    let name = function.symbol.name.duplicate(alloc)?;
    let callees = body_callees(alloc, function)?;
    let calls = once(alloc, &callees)?;
    let names = body_names(alloc, function)?;
    let refs = once(alloc, &names)?;
    Ok(Summary {
        name,
        linkage: function.linkage,
        count: Some(count),
        noinline: function.noinline,
        optnone: function.optnone,
        calls,
        refs,
    })
}

/// The summary of a definition; a declaration has none.
fn summary(alloc: Global, global: &GlobalValue) -> Result<Option<Summary>, AllocError>
    ensures { IfOk result (λ s. s ≡ summary global.now) }
{
    match global {
        GlobalValue::Variable(variable) => match &variable.init {
            None => Ok(None),
            Some(_) => Ok(Some(variable_summary(alloc, variable)?)),
        },
        GlobalValue::Function(function) => match function.blocks.as_slice() {
            [] => Ok(None),
            [_, ..] => Ok(Some(function_summary(alloc, function)?)),
        },
    }
}

/// The summaries of the definitions of a module, bodies that are `available_externally` among them,
/// in the order of its text.
///
/// Beside want of memory, a body of `2^32` phis, instructions and terminators or more is refused as
/// too large for it. Time and memory are linear in the module.
pub fn summarise(alloc: Global, verified: &Verified) -> Result<Vec<Summary>, AllocError>
    ensures { IfOk result (λ v. v.items ≡ summaries verified.now.globals) }
{
    let mut all = Vec::new(alloc);
    for global in verified.module().globals.as_slice() {
        if let Some(one) = summary(alloc, global)? {
            all.push(one)?;
        }
    }
    Ok(all)
}
