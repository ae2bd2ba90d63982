//! The graph of type names (LangRef, "Structure Type").
ghost use Rattle.std.specs.Prelude.{◌≡◌, ◌++◌, [], OnOk, IfOk, Ok};
ghost use Rattle.ir_parse_names.specs.Resolving.{ResolvesTo};
ghost use Rattle.ir_parse_names.specs.Types as typing;
ghost use Rattle.ir_parse_names.specs.TypeNames.{places, put, uses_in, graph_of, graph_from};
ghost use Rattle.ir_parse_stages.specs.MarkViews.{standing, marks};

use crate::graph::Graph;
use crate::mark::{Mark, Marks};
use crate::uses::uses;
use ir_parse_names::{ResolveError, TypeNames};
use std::alloc::{AllocError, Global};

/// One more place, where there is one.
fn put(row: &mut Vec<usize>, place: Option<usize>) -> Result<(), AllocError>
    ensures { OnOk result (row.new.items ≡ row.old.items ++ put place []) }
{
    if let Some(place) = place {
        row.push(place)?;
    }
    Ok(())
}

/// The place of the definition of a name that is used, where it is defined.
fn with_place<'t>(
    alloc: Global,
    types: &TypeNames<'t>,
    row: &mut Vec<usize>,
    mark: &Mark<'t>,
) -> Result<(), ResolveError>
    ensures { ResolvesTo (λ _. row.new.items) result (Ok (row.old.items ++ places types.now (standing mark.now))) }
{
    match mark {
        Mark::TypeUse(name) => {
            let place = types.place_of_name(alloc, name)?;
            put(row, place)?;
            Ok(())
        }
        _ => Ok(()),
    }
}

/// The places of the definitions of the names that are used and defined.
fn places<'t>(
    alloc: Global,
    types: &TypeNames<'t>,
    rows: &[Mark<'t>],
) -> Result<Vec<usize>, ResolveError>
    ensures { ResolvesTo (λ v. v.items) result (Ok (places types.now (marks rows.now))) }
{
    let mut row = Vec::new(alloc);
    'each: for mark in rows {
        with_place(alloc, types, &mut row, mark)?;
    }
    Ok(row)
}

/// The type names in the shape of the definition at a place.
fn uses_at<'t>(alloc: Global, types: &TypeNames<'t>, place: usize) -> Result<Marks<'t>, AllocError>
    ensures { IfOk result (λ m. m ≡ uses_in (typing.shape_at types.now place)) }
{
    let mut marks = Marks::new(alloc);
    match types.shape_at(place) {
        None => Ok(marks),
        Some(shape) => {
            uses(shape, &mut marks)?;
            Ok(marks)
        }
    }
}

/// The places that the definition at a place leads to.
fn row_of<'t>(
    alloc: Global,
    types: &TypeNames<'t>,
    place: usize,
) -> Result<Vec<usize>, ResolveError>
    ensures { ResolvesTo (λ v. v.items) result (Ok (places types.now (uses_in (typing.shape_at types.now place)))) }
{
    let marks = uses_at(alloc, types, place)?;
    places(alloc, types, marks.as_slice())
}

/// The graph of type names: from each definition an edge to that of each name in its shape.
pub fn graph_of<'t>(alloc: Global, types: &TypeNames<'t>) -> Result<Graph, ResolveError>
    ensures { ResolvesTo (λ g. g) result (Ok (graph_of types.now)) }
{
    let mut graph = Graph::new(alloc);
    'each: for place in 0..types.len() {
        graph.push(row_of(alloc, types, place)?)?;
    }
    Ok(graph)
}
