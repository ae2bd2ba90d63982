//! Shapes within the limits, and indices of constant addresses (LangRef, "getelementptr Instruction").
ghost use Rattle.std.specs.Prelude.{◌≡◌};
ghost use Rattle.ir_parse_names.specs.Marks as marked;
ghost use Rattle.ir_parse_names.specs.Resolving.{ResolvesTo};
ghost use Rattle.ir_parse_names.specs.Stages as stages;

use crate::sizes::Sizes;
use ir_parse_names::{ResolveError, address_offset};
use ir_parse_parts::{Level, Operand, Steps, Typed};
use std::alloc::Global;

/// The shapes of a constant address, whose outermost level is the last one and begins first.
fn levels_within<'t>(
    levels: &'t [Level],
    alloc: Global,
    types: &Sizes<'_, 't>,
) -> Result<(), ResolveError>
    ensures { ResolvesTo (λ u. u) result (stages.levels_within types.now levels.now) }
{
    let mut left = levels.len();
    'each: while left > 0 {
        left -= 1;
        types.shape_within(alloc, &levels[left].typed)?;
    }
    Ok(())
}

/// The shapes of a constant address, and then its indices.
fn address_within<'t>(
    steps: &'t Steps,
    alloc: Global,
    types: &Sizes<'_, 't>,
) -> Result<(), ResolveError>
    ensures { ResolvesTo (λ u. u) result (stages.address_within types.now steps.now) }
{
    let levels = steps.levels.as_slice();
    levels_within(levels, alloc, types)?;
    address_offset(alloc, types.types(), levels)?;
    Ok(())
}

/// The constant address that an operand is.
#[tactic(auto, using(crate::proofs::Within::address_passes))]
pub fn operand_within<'t>(
    operand: &'t Operand,
    alloc: Global,
    types: &Sizes<'_, 't>,
) -> Result<(), ResolveError>
    ensures { ResolvesTo (λ u. u) result (stages.marks_within types.now (marked.operand_marks operand.now)) }
{
    match operand {
        Operand::Address(address) => address_within(address.steps(), alloc, types),
        _ => Ok(()),
    }
}

/// A shape as it is written somewhere.
#[tactic(auto, using(crate::proofs::Within::shape_passes))]
pub fn shape_within<'t>(
    typed: &'t Typed,
    alloc: Global,
    types: &Sizes<'_, 't>,
) -> Result<(), ResolveError>
    ensures { ResolvesTo (λ u. u) result (stages.marks_within types.now (marked.typed_marks typed.now)) }
{
    types.shape_within(alloc, typed)
}

/// The shape of a type name, where it isn't opaque.
pub fn typed_within<'t>(
    typed: &'t Option<Typed>,
    alloc: Global,
    types: &Sizes<'_, 't>,
) -> Result<(), ResolveError>
    ensures { ResolvesTo (λ u. u) result (stages.typed_within types.now typed.now) }
{
    match typed {
        None => Ok(()),
        Some(typed) => types.shape_within(alloc, typed),
    }
}
