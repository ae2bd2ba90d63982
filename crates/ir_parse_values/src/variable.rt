//! Global variables with their names resolved (LangRef, "Global Variables").
ghost use Rattle.std.specs.Prelude.{◌≡◌};
ghost use Rattle.ir_parse_names.specs.Resolving.{ResolvesTo};
ghost use Rattle.ir_parse_names.specs.Variables.{init_if};
ghost use Rattle.ir_parse_names.specs.Variables as definitions;

use crate::initialiser::init_in;
use ir_parse_names::{ResolveError, Types, align_or, expanded, symbol_of};
use ir_parse_parts::{Init as WrittenInit, Variable as Written};
use ir_tree::{Init, Shape, Variable, align_of};
use std::alloc::Global;

/// What an initialiser for a shape stands for, where one is written.
fn init_if<'t>(
    alloc: Global,
    types: &Types<'t>,
    shape: &Shape,
    init: &'t Option<WrittenInit>,
) -> Result<Option<Init>, ResolveError>
    ensures { ResolvesTo (λ i. i) result (init_if types.now shape.now init.now) }
{
    match init {
        None => Ok(None),
        Some(init) => {
            let made = init_in(alloc, types, shape, init)?;
            Ok(Some(made))
        }
    }
}

/// What a variable stands for. Where no alignment is written it is that of its shape.
#[tactic(auto, unfolding(ir_parse_names::specs::Variables::variable_in))]
pub fn variable_in<'t>(
    alloc: Global,
    types: &Types<'t>,
    variable: &'t Written,
) -> Result<Variable, ResolveError>
    ensures { ResolvesTo (λ v. v) result (definitions.variable_in types.now variable.now) }
{
    let shape = expanded(alloc, types, &variable.typed)?;
    let init = init_if(alloc, types, &shape, &variable.init)?;
    let symbol = symbol_of(alloc, &variable.name)?;
    let align = align_or(align_of(&shape), variable.align);
    Ok(Variable {
        symbol,
        linkage: variable.linkage,
        constant: variable.constant,
        shape,
        init,
        align,
    })
}
