//! Shapes and constant addresses of the items of a module (LangRef, "Module Structure").
ghost use Rattle.std.specs.Prelude.{◌≡◌};
ghost use Rattle.ir_parse_names.specs.Marks as marked;
ghost use Rattle.ir_parse_names.specs.Resolving.{ResolvesTo};
ghost use Rattle.ir_parse_names.specs.Stages as stages;

use ir_parse_names::{ResolveError, Types};
use ir_parse_parts::{Init, InitHead, InitPart, Item, Variable};
use ir_parse_sizes::{Sizes, blocks_within, operand_within, shape_within, typed_within};
use ir_parse_stages::{graph_of, order_of};
use std::alloc::Global;

fn head_within<'t>(
    head: &'t InitHead,
    alloc: Global,
    types: &Sizes<'_, 't>,
) -> Result<(), ResolveError>
    ensures { ResolvesTo (λ u. u) result (stages.marks_within types.now (marked.head_marks head.now)) }
{
    match head {
        InitHead::Plain(operand) => operand_within(operand, alloc, types),
        _ => Ok(()),
    }
}

#[tactic(auto, using(ir_parse_sizes::proofs::Within::behind))]
fn part_within<'t>(
    part: &'t InitPart,
    alloc: Global,
    types: &Sizes<'_, 't>,
) -> Result<(), ResolveError>
    ensures { ResolvesTo (λ u. u) result (stages.marks_within types.now (marked.part_marks part.now)) }
{
    match part {
        InitPart::Typed { typed, head } => {
            shape_within(typed, alloc, types)?;
            head_within(head, alloc, types)
        }
        InitPart::End => Ok(()),
    }
}

#[tactic(auto, using(ir_parse_sizes::proofs::Within::behind))]
fn parts_within<'t>(
    parts: &'t [InitPart],
    alloc: Global,
    types: &Sizes<'_, 't>,
) -> Result<(), ResolveError>
    ensures { ResolvesTo (λ u. u) result (stages.marks_within types.now (marked.all marked.part_marks parts.now)) }
{
    'each: for part in parts {
        part_within(part, alloc, types)?;
    }
    Ok(())
}

#[tactic(auto, using(ir_parse_sizes::proofs::Within::behind))]
fn init_within<'t>(
    init: &'t Option<Init>,
    alloc: Global,
    types: &Sizes<'_, 't>,
) -> Result<(), ResolveError>
    ensures { ResolvesTo (λ u. u) result (stages.marks_within types.now (marked.init_marks init.now)) }
{
    match init {
        None => Ok(()),
        Some(init) => {
            head_within(&init.root, alloc, types)?;
            parts_within(init.parts.as_slice(), alloc, types)
        }
    }
}

#[tactic(auto, using(ir_parse_sizes::proofs::Within::behind))]
fn variable_within<'t>(
    variable: &'t Variable,
    alloc: Global,
    types: &Sizes<'_, 't>,
) -> Result<(), ResolveError>
    ensures { ResolvesTo (λ u. u) result (stages.marks_within types.now (marked.variable_marks variable.now)) }
{
    shape_within(&variable.typed, alloc, types)?;
    init_within(&variable.init, alloc, types)
}

fn item_within<'t>(item: &'t Item, alloc: Global, types: &Sizes<'_, 't>) -> Result<(), ResolveError>
    ensures { ResolvesTo (λ u. u) result (stages.marks_within types.now (marked.item_marks item.now)) }
{
    match item {
        Item::Type(_, typed) => typed_within(typed, alloc, types),
        Item::Variable(variable) => variable_within(variable, alloc, types),
        Item::Definition(_, body) => blocks_within(body.as_slice(), alloc, types),
        _ => Ok(()),
    }
}

#[tactic(auto, using(ir_parse_sizes::proofs::Within::behind))]
fn items_within<'t>(
    items: &'t [Item],
    alloc: Global,
    types: &Sizes<'_, 't>,
) -> Result<(), ResolveError>
    ensures { ResolvesTo (λ u. u) result (stages.marks_within types.now (marked.marks_of items.now)) }
{
    'each: for item in items {
        item_within(item, alloc, types)?;
    }
    Ok(())
}

/// Whether each shape of a module is within the limits as it is expanded, and each index of a constant
/// address counts a part. A fault is at the first token in the order of the text.
pub fn shapes_within<'t>(
    items: &'t [Item],
    alloc: Global,
    types: &Types<'t>,
) -> Result<(), ResolveError>
    ensures { ResolvesTo (λ u. u) result (stages.marks_within types.now (marked.marks_of items.now)) }
{
    let graph = graph_of(alloc, types.names())?;
    let order = order_of(alloc, &graph)?;
    let sizes = Sizes::of(alloc, types, &order)?;
    items_within(items, alloc, &sizes)
}
