//! The walk from an offset of an object by indices.
ghost use Rattle.std.specs.Prelude.{◌≡◌, ◌≤◌, ◌^◌, ◌&&◌, nat_le, ◌+ℤ◌, ◌*ℤ◌, ℤ, pos, Bool, List, [], ◌∷◌};
ghost use Rattle.ir_tree.specs.Layout.{IsLaidOut};
ghost use Rattle.ir_meaning.specs.Address.{are_all_zero, is_within, new_offset};
ghost use Rattle.ir_machine.specs.Walking.{IsSized, ends_at, ends_by};

use crate::part::{lands_within, moved, step_into};
use ir_tree::{Shape, size_of};

/// What the next index goes along or into.
#[derive(Clone, Copy, Drop)]
pub enum Next<'a> {
    /// An array of this shape, which has no end.
    Along(&'a Shape),
    /// The parts of this shape.
    Into(&'a Shape),
    /// An index led to no part.
    Nowhere,
}

/// A place that indices lead to in an object of `size` bytes: its offset in bytes modulo `2^64`, what the
/// next index goes into, whether each place before was within the object or at its end, and whether each
/// index was zero.
#[derive(Clone, Copy, Drop)]
pub struct Walk<'a> {
    pub size: u64,
    pub offset: u64,
    pub next: Next<'a>,
    pub within: bool,
    pub zero: bool,
}

/// Whether two conditions hold.
fn both(first: bool, second: bool) -> bool
    ensures { result ≡ (first && second) }
{
    first && second
}

/// Whether an index is zero.
fn is_zero(index: i64) -> bool
    ensures { result ≡ are_all_zero (index ∷ []) }
{
    index == 0
}

impl<'a> Walk<'a> {
    /// The place before the first index, which goes along an array of the shape.
    pub fn new(size: u64, offset: u64, shape: &'a Shape) -> Walk<'a>
        requires laid { IsLaidOut shape.now }
        ensures ends { (inbounds : Bool) (is : List ℤ) → ends_at inbounds result is ≡ new_offset inbounds shape.now size offset is }
        ensures sized { IsSized result.next }
    {
        Walk {
            size,
            offset,
            next: Next::Along(shape),
            within: true,
            zero: true,
        }
    }

    /// Whether this place, and the place `count` times so many bytes on, and those before are within the
    /// object.
    fn stays_within(self, count: i64, bytes: u64) -> bool
        ensures { result ≡ (self.entry.within && (nat_le self.entry.offset self.entry.size && is_within self.entry.size (pos self.entry.offset +ℤ count *ℤ pos bytes))) }
    {
        let here = both(
            self.offset <= self.size,
            lands_within(self.size, self.offset, count, bytes),
        );
        both(self.within, here)
    }

    /// The place `count` times so many bytes on, by an index that is zero or not.
    fn on(self, zero: bool, count: i64, bytes: u64, next: Next<'a>) -> Walk<'a>
        requires most { bytes ≤ 2 ^ 31 }
        ensures ends { (inbounds : Bool) (zeros : Bool) (ds : List ℤ) → ends_by inbounds result zeros ds ≡ ends_by inbounds self.entry (zero && zeros) ((count *ℤ pos bytes) ∷ ds) }
        ensures next { result.next ≡ next.entry }
    {
        Walk {
            size: self.size,
            offset: moved(self.offset, count, bytes),
            next,
            within: self.stays_within(count, bytes),
            zero: both(self.zero, zero),
        }
    }

    /// This place, behind an index, zero or not, that leads to no part.
    fn stays(self, zero: bool) -> Walk<'a>
        ensures ends { (inbounds : Bool) (zeros : Bool) (ds : List ℤ) → ends_by inbounds result zeros ds ≡ ends_by inbounds self.entry (zero && zeros) ds }
        ensures next { result.next ≡ Next.Nowhere }
    {
        Walk {
            size: self.size,
            offset: self.offset,
            next: Next::Nowhere,
            within: self.within,
            zero: both(self.zero, zero),
        }
    }

    /// The place behind one more index.
    pub fn index(self, index: i64) -> Walk<'a>
        requires sized { IsSized self.next }
        ensures ends { (inbounds : Bool) (is : List ℤ) → ends_at inbounds result is ≡ ends_at inbounds self.entry (index ∷ is) }
        ensures sized { IsSized result.next }
    {
        let zero = is_zero(index);
        match self.next {
            Next::Along(shape) => self.on(zero, index, size_of(shape), Next::Into(shape)),
            Next::Into(shape) => match step_into(shape, index) {
                Some(step) => self.on(zero, step.count, step.bytes, Next::Into(step.part)),
                None => self.stays(zero),
            },
            Next::Nowhere => self.stays(zero),
        }
    }

    /// The offset of the place; None where `inbounds` makes it poison.
    pub fn end(self, inbounds: bool) -> Option<u64>
        ensures { result ≡ ends_at inbounds self.entry [] }
    {
        if !inbounds || self.zero || both(self.within, self.offset <= self.size) {
            Some(self.offset)
        } else {
            None
        }
    }
}
