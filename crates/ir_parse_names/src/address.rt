//! Constant addresses folded to offsets (LangRef, "getelementptr Instruction").
ghost use Rattle.std.specs.Prelude.{◌≡◌, ◌≤◌, ◌<◌, ◌+◌, ◌^◌, Ok, Some, None, IfSome, option_copied, length, if◌then◌else◌};
ghost use Rattle.ir_tree.specs.Forms.{forms_of, list_of};
ghost use Rattle.ir_tree.specs.Layout.{IsLaidOut, AreLaidOut};
ghost use Rattle.ir_parse_names.specs.Addresses.{bad_index, extended, scaled, picks, part_at, offset_in, level_offset, offset_behind};
ghost use Rattle.ir_parse_names.specs.Addresses as addresses;
ghost use Rattle.ir_tree.specs.declared.failure.Failure.TheVariants as errors;
ghost use Rattle.ir_parse_names.specs.Resolving.{ResolvesTo};

use crate::expand::expanded;
use crate::fault::{Fault, NameFault, ResolveError};
use crate::heads::Types;
use ir_parse_parts::{Index, Level};
use ir_tree::{Shape as Tree, ShapeNode, offset_of as part_offset, size_of};
use std::alloc::Global;

fn bad_index(line: u32) -> ResolveError
    ensures { result ≡ errors.Fault (bad_index line) }
{
    ResolveError::Fault(Fault {
        line,
        kind: NameFault::Index,
    })
}

/// The greatest number of a width.
fn most_of(width: u8) -> u64
    requires some { 0 < width }
    requires most { width ≤ 64 }
    ensures { result + 1 ≡ 2 ^ width }
{
    u64::MAX >> (64 - width)
}

/// The bits of a number of a width, extended to 64 bits by its sign.
#[tactic(auto, using(crate::proofs::Powers::half_pow))]
fn extended(width: u8, bits: u64) -> u64
    ensures { result ≡ extended width bits }
{
    if width == 0 || 64 <= width {
        return bits;
    }
    let most = most_of(width);
    if bits < most / 2 + 1 {
        bits
    } else {
        bits.wrapping_add(u64::MAX - most)
    }
}

/// A number of elements of a shape, in bytes.
fn scaled(index: &Index, shape: &Tree) -> u64
    requires { IsLaidOut shape.now }
    ensures { result ≡ scaled index.now shape.now }
{
    extended(index.width, index.bits).wrapping_mul(size_of(shape))
}

/// The part of a structure that an index counts.
#[tactic(auto, using(crate::proofs::Sizes::count_of, crate::proofs::Sizes::part_is, crate::proofs::Sizes::part_laid))]
fn picked<'p>(index: &Index, parts: &'p [Tree]) -> Option<&'p Tree>
    requires { AreLaidOut (forms_of parts.now) }
    ensures part { option_copied result ≡ (if picks index.now (forms_of parts.now) then Some (part_at (forms_of parts.now) index.now.bits) else None) }
    ensures within { IfSome result (λ _. index.now.bits < length (list_of (forms_of parts.now))) }
    ensures laid { IfSome result (λ p. IsLaidOut p.now) }
{
    if index.width == 32 && index.bits < parts.len() as u64 {
        Some(&parts[index.bits as usize])
    } else {
        None
    }
}

/// The offset of what the indices lead to within a shape.
fn offset_in(shape: &Tree, indices: &[Index]) -> Result<u64, ResolveError>
    requires { IsLaidOut shape.now }
    ensures { ResolvesTo (λ n. n) result (offset_in shape.now indices.now) }
{
    let (index, rest) = match indices {
        [] => return Ok(0),
        [index, rest @ ..] => (index, rest),
    };
    match shape.node() {
        ShapeNode::Int(_) | ShapeNode::Ptr => Err(bad_index(index.line)),
        ShapeNode::Array(_, of) => {
            let inner = offset_in(of, rest)?;
            Ok(scaled(index, of).wrapping_add(inner))
        }
        ShapeNode::Struct(_, parts) => {
            let part = match picked(index, parts) {
                None => return Err(bad_index(index.line)),
                Some(part) => part,
            };
            let begin = part_offset(shape, index.bits);
            let inner = offset_in(part, rest)?;
            Ok(begin.wrapping_add(inner))
        }
    }
}

/// The offset that one level of a constant address adds: its first index counts whole shapes.
#[tactic(auto, unfolding(crate::specs::Addresses::level_offset))]
fn level_offset<'t>(alloc: Global, types: &Types<'t>, level: &'t Level) -> Result<u64, ResolveError>
    ensures { ResolvesTo (λ n. n) result (level_offset types.now level.now) }
{
    let shape = expanded(alloc, types, &level.typed)?;
    offset_of(&shape, level.indices.as_slice())
}

/// The offset of what the indices lead to from a shape on, the first of which counts whole shapes.
fn offset_of(shape: &Tree, indices: &[Index]) -> Result<u64, ResolveError>
    requires { IsLaidOut shape.now }
    ensures { ResolvesTo (λ n. n) result (addresses.offset_of shape.now indices.now) }
{
    match indices {
        [] => Ok(0),
        [first, rest @ ..] => {
            let inner = offset_in(shape, rest)?;
            Ok(scaled(first, shape).wrapping_add(inner))
        }
    }
}

/// The offset of all levels of a constant address.
pub fn address_offset<'t>(
    alloc: Global,
    types: &Types<'t>,
    levels: &'t [Level],
) -> Result<u64, ResolveError>
    ensures { ResolvesTo (λ n. n) result (offset_behind 0 types.now levels.now) }
{
    let mut offset = 0u64;
    'each: for level in levels {
        offset = offset.wrapping_add(level_offset(alloc, types, level)?);
    }
    Ok(offset)
}
