//! The type names in shapes (LangRef, "Structure Type").
ghost use Rattle.std.specs.Prelude.{◌≡◌, ◌++◌, OnOk};
ghost use Rattle.ir_parse_parts.specs.Shapes.{parts_of};
ghost use Rattle.ir_parse_names.specs.Marks as marked;

use crate::mark::{Mark, Marks};
use ir_parse_parts::{Level, Typed, WrittenShape, WrittenShapeNode};
use std::alloc::AllocError;

/// The type names in a shape. Shapes nest at most 32 deep, and so does this call.
#[cycle(shapes)]
pub fn uses<'t>(shape: &'t WrittenShape, marks: &mut Marks<'t>) -> Result<(), AllocError>
    ensures { OnOk result (marks.new ≡ marks.old ++ marked.uses shape.now) }
{
    match shape.node() {
        WrittenShapeNode::Int(_) | WrittenShapeNode::Ptr => Ok(()),
        WrittenShapeNode::Array(_, of) => uses(of, marks),
        WrittenShapeNode::Struct(_, parts) => all_uses(parts, marks),
        WrittenShapeNode::Named(name) => marks.push(Mark::TypeUse(name)),
    }
}

/// The type names in the members of a structure.
#[cycle(shapes)]
fn all_uses<'t>(parts: &'t [WrittenShape], marks: &mut Marks<'t>) -> Result<(), AllocError>
    ensures { OnOk result (marks.new ≡ marks.old ++ marked.all_uses (parts_of parts.now)) }
{
    'each: for part in parts {
        uses(part, marks)?;
    }
    Ok(())
}

/// A shape, and the type names in it.
#[tactic(auto, using(crate::proofs::Gathering::joined))]
pub fn typed_marks<'t>(typed: &'t Typed, marks: &mut Marks<'t>) -> Result<(), AllocError>
    ensures { OnOk result (marks.new ≡ marks.old ++ marked.typed_marks typed.now) }
{
    marks.push(Mark::Shape(typed))?;
    uses(&typed.shape, marks)
}

/// The type names in the shape of a type name, where it isn't opaque.
pub fn uses_if<'t>(typed: &'t Option<Typed>, marks: &mut Marks<'t>) -> Result<(), AllocError>
    ensures { OnOk result (marks.new ≡ marks.old ++ marked.uses_if typed.now) }
{
    match typed {
        None => Ok(()),
        Some(typed) => uses(&typed.shape, marks),
    }
}

/// The type names in the shapes of a constant address, whose outermost level is the last one and begins
/// first.
pub fn level_uses<'t>(levels: &'t [Level], marks: &mut Marks<'t>) -> Result<(), AllocError>
    ensures { OnOk result (marks.new ≡ marks.old ++ marked.level_uses levels.now) }
{
    let mut left = levels.len();
    'each: while left > 0 {
        left -= 1;
        uses(&levels[left].typed.shape, marks)?;
    }
    Ok(())
}
