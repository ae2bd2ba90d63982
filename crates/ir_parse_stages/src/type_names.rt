//! The type names of a module (LangRef, "Structure Type" and "Opaque Structure Types").
ghost use Rattle.std.specs.Prelude.{◌≡◌, Ok, []};
ghost use Rattle.ir_parse_names.specs.Keys.{key_of};
ghost use Rattle.ir_parse_names.specs.Resolving.{ResolvesTo};
ghost use Rattle.ir_parse_names.specs.TypeNames.{first_types, all_typed, use_in, holds_itself, graph_of, type_names};
ghost use Rattle.ir_parse_stages.specs.MarkViews.{standing, marks};

use crate::circles::Circles;
use crate::mark::{Mark, Marks};
use crate::name_graph::graph_of;
use ir_parse_names::{ResolveError, TypeNames, Types, shape_if, unknown};
use ir_parse_parts::Name;
use std::alloc::Global;

fn with_first<'t>(
    alloc: Global,
    types: &mut TypeNames<'t>,
    mark: &Mark<'t>,
) -> Result<(), ResolveError>
    ensures { ResolvesTo (λ _. types.new) result (Ok (first_types types.old (standing mark.now))) }
{
    match mark {
        Mark::TypeName(name, typed) => types.add(alloc, name, shape_if(typed)),
        _ => Ok(()),
    }
}

/// The first definition of each type name.
fn first_types<'t>(alloc: Global, rows: &[Mark<'t>]) -> Result<TypeNames<'t>, ResolveError>
    ensures { ResolvesTo (λ t. t) result (Ok (first_types [] (marks rows.now))) }
{
    let mut types = TypeNames::new(alloc);
    'each: for mark in rows {
        with_first(alloc, &mut types, mark)?;
    }
    Ok(types)
}

/// Whether the definition of a name holds itself.
fn holds_itself<'t>(
    alloc: Global,
    all: &TypeNames<'t>,
    circles: &Circles,
    name: &Name,
) -> Result<bool, ResolveError>
    requires { circles.now ≡ graph_of all.now }
    ensures { ResolvesTo (λ b. b) result (Ok (holds_itself all.now (key_of name.now))) }
{
    match all.place_of_name(alloc, name)? {
        None => Ok(false),
        Some(place) => {
            let back = circles.holds(alloc, place)?;
            Ok(back)
        }
    }
}

/// A type name that is used: it is defined, not opaque, and doesn't hold itself.
fn use_in<'t>(
    alloc: Global,
    all: &TypeNames<'t>,
    circles: &Circles,
    name: &Name,
) -> Result<(), ResolveError>
    requires { circles.now ≡ graph_of all.now }
    ensures { ResolvesTo (λ u. u) result (use_in all.now name.now) }
{
    all.shape_in(alloc, name)?;
    if holds_itself(alloc, all, circles, name)? {
        return Err(unknown(name.line()));
    }
    Ok(())
}

fn typed_by<'t>(
    alloc: Global,
    all: &TypeNames<'t>,
    circles: &Circles,
    types: &mut TypeNames<'t>,
    mark: &Mark<'t>,
) -> Result<(), ResolveError>
    requires { circles.now ≡ graph_of all.now }
    ensures { ResolvesTo (λ _. types.new) result (all_typed all.now types.old (standing mark.now)) }
{
    match mark {
        Mark::TypeName(name, typed) => types.define(alloc, name, shape_if(typed)),
        Mark::TypeUse(name) => use_in(alloc, all, circles, name),
        _ => Ok(()),
    }
}

fn all_typed<'t>(
    alloc: Global,
    all: &TypeNames<'t>,
    circles: &Circles,
    rows: &[Mark<'t>],
) -> Result<TypeNames<'t>, ResolveError>
    requires { circles.now ≡ graph_of all.now }
    ensures { ResolvesTo (λ t. t) result (all_typed all.now [] (marks rows.now)) }
{
    let mut types = TypeNames::new(alloc);
    'each: for mark in rows {
        typed_by(alloc, all, circles, &mut types, mark)?;
    }
    Ok(types)
}

/// The circles of the graph of type names.
fn circles_of<'t>(alloc: Global, all: &TypeNames<'t>) -> Result<Circles, ResolveError>
    ensures { ResolvesTo (λ c. c) result (Ok (graph_of all.now)) }
{
    let graph = graph_of(alloc, all)?;
    let circles = Circles::of(alloc, graph)?;
    Ok(circles)
}

/// The type names of a module, given the first definition of each, and the circles of their graph.
fn types_off_circles<'t>(
    alloc: Global,
    all: &TypeNames<'t>,
    circles: &Circles,
    rows: &[Mark<'t>],
) -> Result<Types<'t>, ResolveError>
    requires { circles.now ≡ graph_of all.now }
    ensures { ResolvesTo (λ t. t) result (all_typed all.now [] (marks rows.now)) }
{
    let names = all_typed(alloc, all, circles, rows)?;
    let types = Types::of(alloc, names)?;
    Ok(types)
}

/// The type names of a module, given the first definition of each.
fn types_with<'t>(
    alloc: Global,
    all: &TypeNames<'t>,
    rows: &[Mark<'t>],
) -> Result<Types<'t>, ResolveError>
    ensures { ResolvesTo (λ t. t) result (all_typed all.now [] (marks rows.now)) }
{
    let circles = circles_of(alloc, all)?;
    types_off_circles(alloc, all, &circles, rows)
}

/// The type names of a module. A fault is at the first token that defines a name a second time, or that uses
/// one which isn't defined, is opaque, or holds itself.
#[tactic(auto, unfolding(ir_parse_names::specs::TypeNames::type_names))]
pub fn types_in<'t>(alloc: Global, marks: &Marks<'t>) -> Result<Types<'t>, ResolveError>
    ensures { ResolvesTo (λ t. t) result (type_names marks.now) }
{
    let rows = marks.as_slice();
    let all = first_types(alloc, rows)?;
    types_with(alloc, &all, rows)
}
