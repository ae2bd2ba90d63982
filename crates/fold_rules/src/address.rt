//! Rows of address computations (LLVM Language Reference, "getelementptr Instruction").
ghost use Rattle.std.specs.Prelude.{◌≡◌, ◌≤◌, ◌^◌, ◌*ℤ◌, ◌∷◌, All, IfSome, List, ℤ, option_map, pos};
ghost use Rattle.ir_tree.specs.Formed.{IsReg};
ghost use Rattle.ir_tree.specs.Layout.{IsLaidOut};
ghost use Rattle.lto_bits.specs.Word.{wrapped};
ghost use Rattle.ir_meaning.specs.Table.{address_rule, all_zero, any_poison, constant_index, constant_indices, symbol_at};
ghost use Rattle.fold_rules.specs.Folding.{row_of};
ghost use Rattle.fold_rules.specs.Leading.{IsStep};
ghost use Rattle.fold_rules.specs.Walking.{offset_behind, offset_from};

use crate::folded::Folded;
use crate::operands::{is_number, is_poison, number_of};
use ir_tree::{Argument, Operand, Reg, Shape, ShapeNode, offset_of, size_of};
use lto_bits::widen;

/// Whether an index is poison.
fn any_poison(indices: &[Argument]) -> bool
    ensures { result ≡ any_poison indices.now }
{
    for index in indices {
        if is_poison(&index.operand) {
            return true;
        }
    }
    false
}

/// Whether all indices are the constant 0.
fn all_zero(indices: &[Argument]) -> bool
    ensures { result ≡ all_zero indices.now }
{
    for index in indices {
        if !is_number(0, &index.operand) {
            return false;
        }
    }
    true
}

/// The number that an index is, as signed, where it is a constant.
fn constant_index(index: &Argument) -> Option<i64>
    requires typed { IsReg index.now.reg }
    ensures { result ≡ constant_index index.now.reg index.now.operand }
{
    match index.reg {
        Reg::Int(width) => {
            let number = number_of(width, &index.operand)?;
            let signed = widen(true, width, 64, number).cast_signed();
            Some(signed)
        }
        Reg::Ptr => None,
    }
}

/// The part of a shape into which an index leads, and how many bytes on, modulo `2^64`.
#[derive(Clone, Copy, Drop)]
struct Step<'a> {
    part: &'a Shape,
    bytes: i64,
}

/// So many bytes, so many times, modulo `2^64`.
fn times(index: i64, bytes: u64) -> i64
    requires most { bytes ≤ 2 ^ 31 }
    ensures { wrapped 64 result ≡ wrapped 64 (index *ℤ pos bytes) }
{
    index.wrapping_mul(bytes.cast_signed())
}

/// Where an index leads from within a shape; None where the shape has no such part.
fn step_into(shape: &Shape, index: i64) -> Option<Step<'_>>
    requires laid { IsLaidOut shape.now }
    ensures step { IsStep shape.now index result }
    ensures laid { IfSome result (λ s. IsLaidOut s.part.now) }
{
    match shape.node() {
        ShapeNode::Int(_) | ShapeNode::Ptr => None,
        ShapeNode::Array(_, of) => {
            let bytes = times(index, size_of(of));
            Some(Step { part: of, bytes })
        }
        ShapeNode::Struct(_, parts) => {
            let place = index.unsigned_abs();
            if place < parts.len() as u64 {
                let bytes = offset_of(shape, place).cast_signed();
                Some(Step {
                    part: &parts[place as usize],
                    bytes,
                })
            } else {
                None
            }
        }
    }
}

/// A place that indices lead to: its offset in bytes, modulo `2^64`, and the shape there. There is none
/// where an index led to no part.
#[derive(Clone, Copy, Drop)]
struct Walk<'a> {
    place: i64,
    inside: Option<&'a Shape>,
}

/// The place behind one more index.
fn advanced<'a>(walk: Walk<'a>, index: i64) -> Walk<'a>
    requires laid { IfSome walk.inside (λ s. IsLaidOut s.now) }
    ensures sum { (is : List ℤ) → offset_behind result is ≡ offset_behind walk.entry (index ∷ is) }
    ensures laid { IfSome result.inside (λ s. IsLaidOut s.now) }
{
    let Some(shape) = walk.inside else {
        return walk;
    };
    match step_into(shape, index) {
        Some(step) => Walk {
            place: walk.place.wrapping_add(step.bytes),
            inside: Some(step.part),
        },
        None => Walk {
            place: walk.place,
            inside: None,
        },
    }
}

/// The offset of a place.
fn offset_at(walk: Walk) -> u64
    ensures { result ≡ wrapped 64 walk.entry.place }
{
    walk.place.cast_unsigned()
}

/// The offset to which indices lead from a place, where all are constants.
fn walked(start: Walk, indices: &[Argument]) -> Option<u64>
    requires laid { IfSome start.inside (λ s. IsLaidOut s.now) }
    requires typed { All (λ a. IsReg a.reg) indices.now }
    ensures { result ≡ option_map (offset_behind start.entry) (constant_indices indices.now) }
{
    let mut walk = start;
    for argument in indices {
        let index = constant_index(argument)?;
        walk = advanced(walk, index);
    }
    Some(offset_at(walk))
}

/// The place behind a first index, which goes along an array of the shape.
fn begun<'a>(offset: u64, shape: &'a Shape, index: i64) -> Walk<'a>
    requires laid { IsLaidOut shape.now }
    ensures sum { (is : List ℤ) → offset_behind result is ≡ offset_from shape.now offset (index ∷ is) }
    ensures laid { IfSome result.inside (λ s. IsLaidOut s.now) }
{
    let by = times(index, size_of(shape));
    Walk {
        place: offset.cast_signed().wrapping_add(by),
        inside: Some(shape),
    }
}

/// The offset to which indices lead from an offset of an object of this shape, where all are constants.
fn moved(offset: u64, shape: &Shape, indices: &[Argument]) -> Option<u64>
    requires laid { IsLaidOut shape.now }
    requires typed { All (λ a. IsReg a.reg) indices.now }
    ensures { result ≡ option_map (offset_from shape.now offset) (constant_indices indices.now) }
{
    let Some((first, rest)) = indices.split_first() else {
        return Some(offset);
    };
    let index = constant_index(first)?;
    walked(begun(offset, shape, index), rest)
}

/// The symbol at the offset to which constant indices lead.
fn symbol_at<'a>(shape: &Shape, base: &'a Operand, indices: &[Argument]) -> Option<Folded<'a>>
    requires laid { IsLaidOut shape.now }
    requires typed { All (λ a. IsReg a.reg) indices.now }
    ensures { row_of result ≡ symbol_at shape.now base.now (constant_indices indices.now) }
{
    if let Operand::Symbol { symbol, offset } = base {
        let offset = moved(*offset, shape, indices)?;
        return Some(Folded::Address { symbol, offset });
    }
    None
}

/// The first row of an address computation that fits.
pub(crate) fn address_rule<'a>(
    shape: &Shape,
    base: &'a Operand,
    indices: &[Argument],
) -> Option<Folded<'a>>
    requires laid { IsLaidOut shape.now }
    requires typed { All (λ a. IsReg a.reg) indices.now }
    ensures { row_of result ≡ address_rule shape.now base.now indices.now }
{
    if is_poison(base) || any_poison(indices) {
        return Some(Folded::Poison(Reg::Ptr));
    }
    if all_zero(indices) {
        return Some(Folded::Same(base));
    }
    symbol_at(shape, base, indices)
}
