//! Shapes with their type names expanded, within the limits (LangRef, "Structure Type").
ghost use Rattle.std.specs.Option.{SomeIff};
ghost use Rattle.std.specs.Prelude.{◌≡◌, ◌≤◌, ◌<◌, ◌^◌, ◌*◌, ◌+◌, nat_le, IfOk, Ok};
ghost use Rattle.ir_tree.specs.Forms.{structure, array, forms_of};
ghost use Rattle.ir_tree.specs.Layout.{IsLaidOut, AreLaidOut, size, ends, begins, widest, rounded};
ghost use Rattle.ir_tree.specs.declared.failure.Failure.TheVariants as errors;
ghost use Rattle.ir_parse_parts.specs.Shapes.{parts_of, list_of};
ghost use Rattle.ir_parse_names.specs.Resolving.{ResolvesTo, each};
ghost use Rattle.ir_parse_names.specs.Types.{expand, limit, scalar, within, without_parts, opened, structure_of};
ghost use Rattle.ir_parse_names.specs.Types as typing;

use crate::fault::{Fault, NameFault, ResolveError};
use crate::heads::Types;
use crate::types::unknown;
use ir_parse_parts::{Typed, WrittenShape, WrittenShapeNode};
use ir_tree::{Shape as Tree, align_of, size_of};
use std::alloc::Global;

/// The most bytes that a shape may have.
const MOST: u64 = 0x8000_0000;

/// The most levels of arrays and structures in a shape.
const NESTING: u32 = 32;

/// The fault of a limit that is passed on a line.
pub fn limit(line: u32) -> ResolveError
    ensures { result ≡ errors.Fault (limit line) }
{
    ResolveError::Fault(Fault {
        line,
        kind: NameFault::Limit,
    })
}

/// An integer.
fn scalar(line: u32, width: u8) -> Result<Tree, ResolveError>
    ensures given { ResolvesTo (λ s. s) result (scalar line width) }
    ensures laid { IfOk result (λ s. IsLaidOut s) }
{
    if 8 <= width && width <= 64 {
        Ok(Tree::int(width))
    } else {
        Err(limit(line))
    }
}

/// The least multiple of the alignment from a place on.
fn rounded(place: u64, align: u64) -> u64
    requires least { 1 ≤ align }
    requires most { align ≤ 8 }
    requires near { place ≤ 2 ^ 31 }
    ensures next { result ≡ rounded place align }
    ensures near { result < 2 ^ 31 + 8 }
{
    (place + (align - 1)) / align * align
}

/// Where a part begins that comes behind a place.
#[tactic(auto, using(ir_tree::proofs::Layouts::align_least, ir_tree::proofs::Layouts::align_most))]
fn begin_of(packed: bool, place: u64, part: &Tree) -> u64
    requires laid { IsLaidOut part.now }
    requires near { place ≤ 2 ^ 31 }
    ensures begin { result ≡ begins packed place part.now }
    ensures near { result < 2 ^ 31 + 8 }
{
    if packed {
        place
    } else {
        rounded(place, align_of(part))
    }
}

/// The end of a part that comes behind a place.
#[tactic(auto, using(crate::proofs::Sizes::size_most))]
fn end_behind(packed: bool, place: u64, part: &Tree) -> u64
    requires laid { IsLaidOut part.now }
    requires near { place ≤ 2 ^ 31 }
    ensures { result ≡ begins packed place part.now + size part.now }
{
    let begin = begin_of(packed, place, part);
    begin + size_of(part)
}

/// The end of the parts of a structure, where it is within the limit.
fn end_of(packed: bool, parts: &[Tree]) -> Option<u64>
    requires { AreLaidOut (forms_of parts.now) }
    ensures { SomeIff result (ends packed 0 (forms_of parts.now) ≤ 2 ^ 31) (ends packed 0 (forms_of parts.now)) }
{
    let mut end = 0;
    'each: for part in parts {
        end = end_behind(packed, end, part);
        if end > MOST {
            return None;
        }
    }
    Some(end)
}

/// The greatest alignment of the parts.
#[tactic(auto, using(ir_tree::proofs::Layouts::max_widest))]
fn widest(parts: &[Tree]) -> u64
    requires { AreLaidOut (forms_of parts.now) }
    ensures { result ≡ widest (forms_of parts.now) }
{
    let mut most = 1;
    'each: for part in parts {
        most = most.max(align_of(part));
    }
    most
}

/// The size of a structure, where it is within the limit.
#[tactic(auto, using(ir_tree::proofs::Layouts::widest_least, ir_tree::proofs::Layouts::widest_most, ir_tree::proofs::Layouts::rounded_least))]
fn struct_size(packed: bool, parts: &[Tree]) -> Option<u64>
    requires { AreLaidOut (forms_of parts.now) }
    ensures { SomeIff result (size (structure packed (forms_of parts.now)) ≤ 2 ^ 31) (size (structure packed (forms_of parts.now))) }
{
    let end = end_of(packed, parts)?;
    if packed {
        return Some(end);
    }
    let size = rounded(end, widest(parts));
    if size > MOST { None } else { Some(size) }
}

/// A structure of these parts.
fn structure_within(line: u32, packed: bool, parts: Vec<Tree>) -> Result<Tree, ResolveError>
    requires { AreLaidOut (forms_of parts.items) }
    ensures given { ResolvesTo (λ s. s) result (within line (structure packed (forms_of parts.items))) }
    ensures laid { IfOk result (λ s. IsLaidOut s) }
{
    match struct_size(packed, &parts) {
        None => Err(limit(line)),
        Some(_) => Ok(Tree::structure(packed, parts)),
    }
}

/// An array of so many of a shape.
fn array_within(alloc: Global, line: u32, count: u64, of: Tree) -> Result<Tree, ResolveError>
    requires { IsLaidOut of }
    ensures given { ResolvesTo (λ s. s) result (within line (array count of)) }
    ensures laid { IfOk result (λ s. IsLaidOut s) }
{
    match count.checked_mul(size_of(&of)) {
        Some(size) if size <= MOST => {
            let shape = Tree::array(alloc, count, of)?;
            Ok(shape)
        }
        _ => Err(limit(line)),
    }
}

/// A shape that may have no parts.
fn without_parts(line: u32, head: &WrittenShape) -> Result<Tree, ResolveError>
    ensures given { ResolvesTo (λ s. s) result (without_parts line head.now) }
    ensures laid { IfOk result (λ s. IsLaidOut s) }
{
    match head.node() {
        WrittenShapeNode::Int(width) => scalar(line, *width),
        WrittenShapeNode::Ptr => Ok(Tree::ptr()),
        WrittenShapeNode::Array(..) | WrittenShapeNode::Struct(..) => Err(limit(line)),
        WrittenShapeNode::Named(name) => Err(unknown(name.line())),
    }
}

/// The shape as its names expand, with at most so many levels of arrays and structures. A limit is
/// passed on the line of the shape's first token.
#[cycle(expansion)]
fn expand<'t>(
    alloc: Global,
    types: &Types<'t>,
    nesting: u32,
    line: u32,
    shape: &'t WrittenShape,
) -> Result<Tree, ResolveError>
    ensures given { ResolvesTo (λ s. s) result (typing.expand nesting types.now line shape.now) }
    ensures laid { IfOk result (λ s. IsLaidOut s) }
{
    let head = types.head_of(alloc, shape)?;
    if nesting == 0 {
        return without_parts(line, head);
    }
    match head.node() {
        WrittenShapeNode::Int(width) => scalar(line, *width),
        WrittenShapeNode::Ptr => Ok(Tree::ptr()),
        WrittenShapeNode::Array(count, of) => {
            let of = expand(alloc, types, nesting - 1, line, of)?;
            array_within(alloc, line, *count, of)
        }
        WrittenShapeNode::Struct(packed, parts) => {
            expand_struct(alloc, types, nesting - 1, line, *packed, parts)
        }
        WrittenShapeNode::Named(name) => Err(unknown(name.line())),
    }
}

/// The structure of these parts, expanded.
#[cycle(expansion)]
fn expand_struct<'t>(
    alloc: Global,
    types: &Types<'t>,
    nesting: u32,
    line: u32,
    packed: bool,
    shapes: &'t [WrittenShape],
) -> Result<Tree, ResolveError>
    ensures given { ResolvesTo (λ s. s) result (structure_of line packed (each (typing.expand nesting types.now line) (list_of (parts_of shapes.now)))) }
    ensures laid { IfOk result (λ s. IsLaidOut s) }
{
    let parts = expand_all(alloc, types, nesting, line, shapes)?;
    structure_within(line, packed, parts)
}

/// Each of these shapes, expanded.
#[cycle(expansion)]
#[tactic(auto, using(ir_parse_parts::specs::Shapes::list_of_parts))]
fn expand_all<'t>(
    alloc: Global,
    types: &Types<'t>,
    nesting: u32,
    line: u32,
    shapes: &'t [WrittenShape],
) -> Result<Vec<Tree>, ResolveError>
    ensures given { ResolvesTo (λ v. v.items) result (each (typing.expand nesting types.now line) (list_of (parts_of shapes.now))) }
    ensures laid { IfOk result (λ v. AreLaidOut (forms_of v.items)) }
{
    let mut out = Vec::new(alloc);
    'each: for shape in shapes {
        let made = expand(alloc, types, nesting, line, shape)?;
        out.push(made)?;
    }
    Ok(out)
}

/// A shape as it is written somewhere, expanded within the limits.
#[tactic(auto, unfolding(crate::specs::Types::expanded))]
pub fn expanded<'t>(
    alloc: Global,
    types: &Types<'t>,
    typed: &'t Typed,
) -> Result<Tree, ResolveError>
    ensures given { ResolvesTo (λ s. s) result (typing.expanded types.now typed.now) }
    ensures laid { IfOk result (λ s. IsLaidOut s) }
{
    expand(alloc, types, NESTING, typed.line, &typed.shape)
}

/// An array of so many of a shape, which is a level of its own.
#[tactic(auto, unfolding(crate::specs::Types::array_of))]
pub fn array_of<'t>(
    alloc: Global,
    types: &Types<'t>,
    typed: &'t Typed,
    count: u64,
) -> Result<Tree, ResolveError>
    ensures given { ResolvesTo (λ s. s) result (typing.array_of types.now typed.now count) }
    ensures laid { IfOk result (λ s. IsLaidOut s) }
{
    let of = expand(alloc, types, NESTING - 1, typed.line, &typed.shape)?;
    array_within(alloc, typed.line, count, of)
}
