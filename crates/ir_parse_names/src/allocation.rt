//! What an `alloca` takes, and alignments (LangRef, "'alloca' Instruction").
ghost use Rattle.std.specs.Prelude.{◌≡◌, IfOk};
ghost use Rattle.ir_tree.specs.Layout.{IsLaidOut};
ghost use Rattle.ir_parse_names.specs.Bodies.{allocated, align_or};
ghost use Rattle.ir_parse_names.specs.Resolving.{ResolvesTo};

use crate::expand::{array_of, expanded};
use crate::fault::ResolveError;
use crate::heads::Types;
use ir_parse_parts::Typed;
use ir_tree::Shape;
use std::alloc::Global;

/// What an `alloca` of so many of a shape takes: a count other than 1 makes an array.
pub fn allocated<'t>(
    alloc: Global,
    types: &Types<'t>,
    typed: &'t Typed,
    count: u64,
) -> Result<Shape, ResolveError>
    ensures given { ResolvesTo (λ s. s) result (allocated types.now typed.now count) }
    ensures laid { IfOk result (λ s. IsLaidOut s) }
{
    if count == 1 {
        expanded(alloc, types, typed)
    } else {
        array_of(alloc, types, typed, count)
    }
}

/// The alignment that is written, or this one.
pub fn align_or(default: u64, written: Option<u64>) -> u64
    ensures { result ≡ align_or default written }
{
    match written {
        None => default,
        Some(align) => align,
    }
}
