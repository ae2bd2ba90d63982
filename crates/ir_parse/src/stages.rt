//! The stages behind the grammar, from items to a module.
ghost use Rattle.std.specs.Prelude.{◌≡◌};
ghost use Rattle.ir_parse_names.specs.Groups.{groups_of};
ghost use Rattle.ir_parse_names.specs.Marks.{marks_of};
ghost use Rattle.ir_parse_names.specs.Resolving.{ResolvesTo};
ghost use Rattle.ir_parse.specs.Stages.{module_behind, module_in, module_with};
ghost use Rattle.ir_parse.specs.Values.{values_in};

use crate::item_limits::shapes_within;
use crate::targets::{datalayout_of, triple_of};
use crate::values::values_in;
use ir_parse_names::{ResolveError, Types, groups_of};
use ir_parse_parts::Item;
use ir_parse_stages::{Marks, gather, globals_in, types_in};
use ir_tree::{GlobalValue, Module, Rows};
use std::alloc::Global;

/// The global values of these items, whose attribute groups are found first.
fn values_of<'t>(
    items: &'t [Item],
    alloc: Global,
    types: &Types<'t>,
) -> Result<Rows<GlobalValue>, ResolveError>
    ensures { ResolvesTo (λ vs. vs) result (values_in types.now (groups_of items.now) items.now) }
{
    let groups = groups_of(alloc, items)?;
    values_in(items, alloc, types, &groups)
}

/// The module of these items, whose type names are these: its target lines, and its global values one by
/// one.
#[tactic(auto, unfolding(crate::specs::Stages::module_with))]
fn module_with<'t>(
    items: &'t [Item],
    alloc: Global,
    types: &Types<'t>,
) -> Result<Module, ResolveError>
    ensures { ResolvesTo (λ m. m) result (module_with types.now items.now) }
{
    let globals = values_of(items, alloc, types)?;
    let datalayout = datalayout_of(alloc, items)?;
    let triple = triple_of(alloc, items)?;
    Ok(Module {
        datalayout,
        triple,
        globals,
    })
}

/// The module of items that have these marks and type names: its shapes and names of globals are looked
/// at over the whole text, and then its functions one by one.
fn module_behind<'t>(
    items: &'t [Item],
    alloc: Global,
    marks: &Marks<'t>,
    types: &Types<'t>,
) -> Result<Module, ResolveError>
    requires { marks.now ≡ marks_of items.now }
    ensures { ResolvesTo (λ m. m) result (module_behind types.now items.now) }
{
    shapes_within(items, alloc, types)?;
    globals_in(alloc, marks)?;
    module_with(items, alloc, types)
}

/// The module that items stand for: its type names, shapes and names of globals are looked at in this
/// order over the whole text, and then its functions one by one.
#[tactic(auto, unfolding(crate::specs::Stages::module_in))]
pub fn module_in<'t>(items: &'t [Item], alloc: Global) -> Result<Module, ResolveError>
    ensures { ResolvesTo (λ m. m) result (module_in items.now) }
{
    let mut marks = Marks::new(alloc);
    gather(items, &mut marks)?;
    let types = types_in(alloc, &marks)?;
    module_behind(items, alloc, &marks, &types)
}
