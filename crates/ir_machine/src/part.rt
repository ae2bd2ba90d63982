//! Parts of shapes, and bytes modulo `2^64`.
ghost use Rattle.std.specs.Prelude.{◌≡◌, ◌≤◌, ◌^◌, ◌+◌, ◌-◌, ◌&&◌, nat_le, ◌+ℤ◌, ◌*ℤ◌, IfSome, pos};
ghost use Rattle.ir_tree.specs.Layout.{IsLaidOut};
ghost use Rattle.ir_meaning.specs.Address.{is_within};
ghost use Rattle.lto_bits.specs.Word.{wrapped};
ghost use Rattle.ir_machine.specs.Leading.{IsStep};

use ir_tree::{Shape, ShapeNode, offset_of, size_of};

/// The part of a shape into which an index leads, and how far on: `count` times so many bytes.
#[derive(Clone, Copy, Drop)]
pub(crate) struct Step<'a> {
    pub part: &'a Shape,
    pub count: i64,
    pub bytes: u64,
}

/// Where an index leads from within a shape; None where the shape has no such part.
pub(crate) fn step_into(shape: &Shape, index: i64) -> Option<Step<'_>>
    requires laid { IsLaidOut shape.now }
    ensures step { IsStep shape.now index result }
    ensures laid { IfSome result (λ s. IsLaidOut s.part.now) }
    ensures few { IfSome result (λ s. s.bytes ≤ 2 ^ 31) }
{
    match shape.node() {
        ShapeNode::Int(_) | ShapeNode::Ptr => None,
        ShapeNode::Array(_, of) => {
            let bytes = size_of(of);
            Some(Step {
                part: of,
                count: index,
                bytes,
            })
        }
        ShapeNode::Struct(_, parts) => {
            let place = index.unsigned_abs();
            if place < parts.len() as u64 {
                let bytes = offset_of(shape, place);
                Some(Step {
                    part: &parts[place as usize],
                    count: 1,
                    bytes,
                })
            } else {
                None
            }
        }
    }
}

/// So many bytes, so many times, modulo `2^64`.
fn times(count: i64, bytes: u64) -> i64
    requires most { bytes ≤ 2 ^ 31 }
    ensures { wrapped 64 result ≡ wrapped 64 (count *ℤ pos bytes) }
{
    count.wrapping_mul(bytes.cast_signed())
}

/// An offset and so many bytes on, modulo `2^64`.
fn added(offset: u64, by: i64) -> i64
    ensures { wrapped 64 result ≡ wrapped 64 (pos offset +ℤ by) }
{
    offset.cast_signed().wrapping_add(by)
}

/// The offset that a signed number stands for.
fn unsigned(place: i64) -> u64
    ensures { result ≡ wrapped 64 place }
{
    place.cast_unsigned()
}

/// An offset and `count` times so many bytes on, modulo `2^64`.
pub(crate) fn moved(offset: u64, count: i64, bytes: u64) -> u64
    requires most { bytes ≤ 2 ^ 31 }
    ensures { result ≡ wrapped 64 (pos offset +ℤ count *ℤ pos bytes) }
{
    unsigned(added(offset, times(count, bytes)))
}

/// Whether an offset of an object of `size` bytes is still one, or its end, so many bytes before.
fn lands_below(size: u64, offset: u64, by: u64) -> bool
    ensures { result ≡ (nat_le by offset && nat_le (offset - by) size) }
{
    by <= offset && offset - by <= size
}

/// Whether an offset is one of an object of `size` bytes, or its end, so many bytes on.
fn lands_above(size: u64, offset: u64, by: u64) -> bool
    ensures { result ≡ nat_le (offset + by) size }
{
    by <= size && offset <= size - by
}

/// Whether the place that is `count` times so many bytes on from an offset is one of an object of `size`
/// bytes, or at its end.
pub(crate) fn lands_within(size: u64, offset: u64, count: i64, bytes: u64) -> bool
    ensures { result ≡ is_within size (pos offset +ℤ count *ℤ pos bytes) }
{
    let Some(by) = count.unsigned_abs().checked_mul(bytes) else {
        return false;
    };
    if count < 0 {
        lands_below(size, offset, by)
    } else {
        lands_above(size, offset, by)
    }
}
