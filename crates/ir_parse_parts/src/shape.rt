//! Shapes with type names in them (LangRef, "Structure Type", "Array Type" and "Opaque Structure
//! Types").
ghost use Rattle.std.specs.Prelude.{◌≡◌, IfOk};
ghost use Rattle.ir_parse_parts.specs.Shapes.{int, pointer, array, structure, named, parts_of};
ghost use Rattle.ir_parse_parts.specs.ShapeViews.{written_of};

use crate::name::Name;
use std::alloc::{AllocError, Global};
use std::marker::Model;

/// The type of a piece of memory as it is written, type names and all. Contracts see a `Written`.
///
/// A reader makes none that nests deeper than 32 arrays and structures.
#[cycle(shape)]
#[derive(Drop)]
pub struct WrittenShape {
    node: WrittenShapeNode,
}

/// What a shape is, with its parts as they are kept.
#[cycle(shape)]
#[derive(Drop)]
pub enum WrittenShapeNode {
    /// An integer of so many bits.
    Int(u8),
    Ptr,
    /// A count of elements of a shape.
    Array(u64, Box<WrittenShape>),
    /// A structure, whether it is packed, and its members.
    Struct(bool, Vec<WrittenShape>),
    /// The shape that a type name stands for.
    Named(Name),
}

impl Model for WrittenShape {
    ghost use Rattle.ir_parse_parts.specs.Shapes.{Written};
    ghost use Rattle.ir_parse_parts.specs.ShapeCode.{code_from};
    ghost use Rattle.std.specs.Coded.{codes};
    ghost use Rattle.ir_parse_parts.specs.ShapeSizes.{nodes};

    ghost Value = { Written };

    ghost coded = { code_from (Prim.hlevel (codes)) };

    ghost use Rattle.ir_parse_parts.specs.ShapeViews.{written_of};

    ghost view = { λ a. written_of a.node };

    ghost size = { nodes };

    ghost use Rattle.ir_parse_parts.specs.ShapeFalls.{depth_le-nodes};

    ghost size_decreases = { λ a h. depth_le-nodes a.node };
}

/// A shape, and the line of its first token.
#[derive(Drop)]
pub struct Typed {
    pub shape: WrittenShape,
    pub line: u32,
}

impl WrittenShape {
    /// An integer of `width` bits.
    pub fn int(width: u8) -> WrittenShape
        ensures { result ≡ int width }
    {
        WrittenShape {
            node: WrittenShapeNode::Int(width),
        }
    }

    /// A pointer.
    pub fn ptr() -> WrittenShape
        ensures { result ≡ pointer }
    {
        WrittenShape {
            node: WrittenShapeNode::Ptr,
        }
    }

    /// `[count x of]`.
    pub fn array(alloc: Global, count: u64, of: WrittenShape) -> Result<WrittenShape, AllocError>
        ensures { IfOk result (λ shape. shape ≡ array count of) }
    {
        let of = Box::new(alloc, of)?;
        Ok(WrittenShape {
            node: WrittenShapeNode::Array(count, of),
        })
    }

    /// `{ parts }`, or `<{ parts }>` where it is packed.
    pub fn structure(packed: bool, parts: Vec<WrittenShape>) -> WrittenShape
        ensures { result ≡ structure packed (parts_of parts.items) }
    {
        WrittenShape {
            node: WrittenShapeNode::Struct(packed, parts),
        }
    }

    /// The shape that a type name stands for.
    pub fn named(name: Name) -> WrittenShape
        ensures { result ≡ named name }
    {
        WrittenShape {
            node: WrittenShapeNode::Named(name),
        }
    }

    /// What the shape is.
    pub fn node(&self) -> &WrittenShapeNode
        ensures { self.now ≡ written_of result.now }
    {
        &self.node
    }
}
