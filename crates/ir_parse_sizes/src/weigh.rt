//! Shapes measured by what is known of type names.
ghost use Rattle.std.specs.Prelude.{◌≡◌, IfOk};
ghost use Rattle.ir_parse_names.specs.Resolving.{ResolvesTo, each};
ghost use Rattle.ir_parse_names.specs.Keys.{key_of};
ghost use Rattle.ir_parse_names.specs.TypeNames.{place_of};
ghost use Rattle.ir_parse_sizes.specs.Measures as measures;
ghost use Rattle.ir_parse_sizes.specs.Measures.{IsSmall, AreSmall, IsSmallIf, IsKnownSmall, AreKnownSmall, or_limit, known_as, known_at};

use crate::measure::{Measure, array_of, scalar, structure_of};
use ir_parse_names::{ResolveError, TypeNames, limit, unknown};
use ir_parse_parts::{Name, WrittenShape, WrittenShapeNode};
use std::alloc::Global;

/// How many names the definition of a type name goes on by, and the measure of the shape that it leads
/// to: `None` where that is past a limit.
#[derive(Clone, Copy)]
pub struct Known {
    pub names: usize,
    pub measure: Option<Measure>,
}

fn or_limit(line: u32, measure: Option<Measure>) -> Result<Measure, ResolveError>
    requires { IsSmallIf measure }
    ensures given { ResolvesTo (λ m. m) result (or_limit line measure) }
    ensures small { IfOk result (λ m. IsSmall m) }
{
    match measure {
        None => Err(limit(line)),
        Some(measure) => Ok(measure),
    }
}

/// What a name on a line stands for.
fn known_as(line: u32, name_line: u32, known: Option<Known>) -> Result<Measure, ResolveError>
    requires { IsKnownSmall known }
    ensures given { ResolvesTo (λ m. m) result (known_as line name_line known) }
    ensures small { IfOk result (λ m. IsSmall m) }
{
    match known {
        None => Err(unknown(name_line)),
        Some(known) => or_limit(line, known.measure),
    }
}

/// What is known of the definition at a place.
pub fn known_at(known: &[Option<Known>], place: Option<usize>) -> Option<Known>
    requires { AreKnownSmall known.now }
    ensures given { result ≡ known_at known.now place }
    ensures small { IsKnownSmall result }
{
    match place {
        Some(place) if place < known.len() => known[place],
        _ => None,
    }
}

/// The measure of a shape, whose faults of limits are on a line.
#[cycle(weighing)]
#[tactic(auto, using(crate::proofs::Weighing::weighed_each))]
pub fn weigh<'t>(
    alloc: Global,
    names: &TypeNames<'t>,
    known: &[Option<Known>],
    line: u32,
    shape: &WrittenShape,
) -> Result<Measure, ResolveError>
    requires { AreKnownSmall known.now }
    ensures given { ResolvesTo (λ m. m) result (measures.weigh names.now known.now line shape.now) }
    ensures small { IfOk result (λ m. IsSmall m) }
{
    match shape.node() {
        WrittenShapeNode::Int(width) => scalar(line, *width),
        WrittenShapeNode::Ptr => Ok(Measure {
            size: 8,
            align: 8,
            levels: 0,
        }),
        WrittenShapeNode::Array(count, of) => {
            let of = weigh(alloc, names, known, line, of)?;
            array_of(line, *count, of)
        }
        WrittenShapeNode::Struct(packed, parts) => {
            let parts = weigh_all(alloc, names, known, line, parts)?;
            structure_of(line, *packed, parts.as_slice())
        }
        WrittenShapeNode::Named(name) => weigh_name(alloc, names, known, line, name),
    }
}

/// The measures of these shapes.
#[cycle(weighing)]
fn weigh_all<'t>(
    alloc: Global,
    names: &TypeNames<'t>,
    known: &[Option<Known>],
    line: u32,
    shapes: &[WrittenShape],
) -> Result<Vec<Measure>, ResolveError>
    requires { AreKnownSmall known.now }
    ensures given { ResolvesTo (λ v. v.items) result (each (measures.weigh names.now known.now line) shapes.now) }
    ensures small { IfOk result (λ v. AreSmall v.items) }
{
    let mut out = Vec::new(alloc);
    'each: for shape in shapes {
        let measure = weigh(alloc, names, known, line, shape)?;
        out.push(measure)?;
    }
    Ok(out)
}

fn weigh_name<'t>(
    alloc: Global,
    names: &TypeNames<'t>,
    known: &[Option<Known>],
    line: u32,
    name: &Name,
) -> Result<Measure, ResolveError>
    requires { AreKnownSmall known.now }
    ensures given { ResolvesTo (λ m. m) result (known_as line name.now.line (known_at known.now (place_of names.now (key_of name.now)))) }
    ensures small { IfOk result (λ m. IsSmall m) }
{
    let place = names.place_of_name(alloc, name)?;
    known_as(line, name.line(), known_at(known, place))
}
