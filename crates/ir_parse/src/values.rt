//! The global values of a module in the order of the text (LangRef, "Global Variables" and "Functions").
ghost use Rattle.std.specs.Prelude.{◌≡◌};
ghost use Rattle.ir_parse_names.specs.Groups.{no_groups};
ghost use Rattle.ir_parse_names.specs.Resolving.{ResolvesTo};
ghost use Rattle.ir_parse.specs.Values.{value_in, values_in};
ghost use Rattle.ir_parse_parts.specs.declared.raw.Item.TheVariants as items;

use ir_parse_names::{Groups, ResolveError, Types, is_noinline, is_optnone};
use ir_parse_parts::{Block, FunctionHeader, Item, Variable};
use ir_parse_values::{declaration_in, function_in, variable_in};
use ir_tree::{GlobalValue, Rows};
use std::alloc::Global;

/// The global value that a variable is.
fn variable_value<'t>(
    variable: &'t Variable,
    alloc: Global,
    types: &Types<'t>,
) -> Result<Option<GlobalValue>, ResolveError>
    ensures { ResolvesTo (λ v. v) result (value_in types.now no_groups (items.Variable variable.now)) }
{
    let made = variable_in(alloc, types, variable)?;
    Ok(Some(GlobalValue::Variable(made)))
}

/// The global value that a declaration is.
fn declared_value<'t>(
    head: &'t FunctionHeader,
    alloc: Global,
    types: &Types<'t>,
) -> Result<Option<GlobalValue>, ResolveError>
    ensures { ResolvesTo (λ v. v) result (value_in types.now no_groups (items.Declaration head.now)) }
{
    let made = declaration_in(alloc, types, head)?;
    Ok(Some(GlobalValue::Function(made)))
}

/// The global value that a definition is, with the attributes that its head and its groups say.
fn defined_value<'t>(
    blocks: &'t [Block],
    head: &'t FunctionHeader,
    alloc: Global,
    types: &Types<'t>,
    groups: &Groups<'t>,
) -> Result<Option<GlobalValue>, ResolveError>
    ensures { ResolvesTo (λ v. v) result (value_in types.now groups.now (items.Definition head.now blocks.now)) }
{
    let noinline = is_noinline(groups, head);
    let optnone = is_optnone(groups, head);
    let made = function_in(blocks, alloc, types, head, noinline, optnone)?;
    Ok(Some(GlobalValue::Function(made)))
}

/// The global value that an item is, where it is one.
fn value_in<'t>(
    item: &'t Item,
    alloc: Global,
    types: &Types<'t>,
    groups: &Groups<'t>,
) -> Result<Option<GlobalValue>, ResolveError>
    ensures { ResolvesTo (λ v. v) result (value_in types.now groups.now item.now) }
{
    match item {
        Item::Variable(variable) => variable_value(variable, alloc, types),
        Item::Declaration(head) => declared_value(head, alloc, types),
        Item::Definition(head, blocks) => {
            defined_value(blocks.as_slice(), head, alloc, types, groups)
        }
        Item::Datalayout(_) | Item::Triple(_) | Item::Attributes { .. } | Item::Type(..) => {
            Ok(None)
        }
    }
}

/// The global values of a module, one for each variable, declaration and definition, in the order of
/// the text.
pub fn values_in<'t>(
    items: &'t [Item],
    alloc: Global,
    types: &Types<'t>,
    groups: &Groups<'t>,
) -> Result<Rows<GlobalValue>, ResolveError>
    ensures { ResolvesTo (λ vs. vs) result (values_in types.now groups.now items.now) }
{
    let mut values = Rows::new(alloc);
    'each: for item in items {
        if let Some(value) = value_in(item, alloc, types, groups)? {
            values.push(value)?;
        }
    }
    Ok(values)
}
