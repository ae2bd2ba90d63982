//! Sizes, alignments and levels of shapes whose parts are measured (LangRef, "Data Layout").
ghost use Rattle.std.specs.Option.{SomeIff};
ghost use Rattle.std.specs.Prelude.{◌≡◌, ◌≤◌, ◌<◌, ◌^◌, ◌+◌, max, suc, IfOk};
ghost use Rattle.ir_parse_names.specs.Resolving.{ResolvesTo};
ghost use Rattle.ir_tree.specs.Layout.{rounded};
ghost use Rattle.ir_parse_sizes.specs.Measures as measures;
ghost use Rattle.ir_parse_sizes.specs.Measures.{IsSmall, AreSmall, begins, ends, widest, deepest_of, struct_size, struct_align};

use ir_parse_names::{ResolveError, limit};

/// The most bytes that a shape may have.
const MOST: u64 = 0x8000_0000;

/// The most levels of arrays and structures in a shape.
pub const NESTING: u32 = 32;

/// Bytes and alignment in bytes of a shape, and how deep its arrays and structures nest.
#[derive(Clone, Copy)]
pub struct Measure {
    pub size: u64,
    pub align: u64,
    pub levels: u32,
}

/// A shape of this measure, where it is within the limits.
fn within(line: u32, size: u64, align: u64, levels: u32) -> Result<Measure, ResolveError>
    requires least { 1 ≤ align }
    requires most { align ≤ 8 }
    ensures given { ResolvesTo (λ m. m) result (measures.within line (measures.measure size align levels)) }
    ensures small { IfOk result (λ m. IsSmall m) }
{
    if size <= MOST && levels <= NESTING {
        Ok(Measure {
            size,
            align,
            levels,
        })
    } else {
        Err(limit(line))
    }
}

/// An integer.
pub fn scalar(line: u32, width: u8) -> Result<Measure, ResolveError>
    ensures given { ResolvesTo (λ m. m) result (measures.scalar line width) }
    ensures small { IfOk result (λ m. IsSmall m) }
{
    if 8 <= width && width <= 64 {
        let bytes = u64::from(width) / 8;
        Ok(Measure {
            size: bytes,
            align: bytes,
            levels: 0,
        })
    } else {
        Err(limit(line))
    }
}

/// An array of so many of a shape.
pub fn array_of(line: u32, count: u64, of: Measure) -> Result<Measure, ResolveError>
    requires { IsSmall of }
    ensures given { ResolvesTo (λ m. m) result (measures.array_of line count of) }
    ensures small { IfOk result (λ m. IsSmall m) }
{
    match count.checked_mul(of.size) {
        None => Err(limit(line)),
        Some(size) => within(line, size, of.align, of.levels + 1),
    }
}

/// The end of a part that comes behind a place.
fn end_behind(packed: bool, place: u64, part: &Measure) -> u64
    requires small { IsSmall part.now }
    requires near { place ≤ 2 ^ 31 }
    ensures { result ≡ begins packed place part.now + part.now.size }
{
    if packed {
        place + part.size
    } else {
        (place + (part.align - 1)) / part.align * part.align + part.size
    }
}

/// The end of the parts of a structure, where it is within the limit.
#[tactic(auto, using(crate::proofs::Small::step_least))]
fn end_of(packed: bool, parts: &[Measure]) -> Option<u64>
    requires { AreSmall parts.now }
    ensures { SomeIff result (ends packed 0 parts.now ≤ 2 ^ 31) (ends packed 0 parts.now) }
{
    let mut end = 0;
    'each: for part in parts {
        end = end_behind(packed, end, part);
        if end > MOST {
            return None;
        }
    }
    Some(end)
}

/// The greatest alignment of the parts.
#[tactic(auto, using(crate::proofs::Small::max_widest))]
fn widest(parts: &[Measure]) -> u64
    requires { AreSmall parts.now }
    ensures { result ≡ widest parts.now }
{
    let mut most = 1;
    'each: for part in parts {
        most = most.max(part.align);
    }
    most
}

/// How deep the parts nest.
fn deepest(parts: &[Measure]) -> u32
    ensures { result ≡ deepest_of parts.now }
{
    let mut most = 0;
    'each: for part in parts {
        most = most.max(part.levels);
    }
    most
}

/// The size of a structure, where it is within the limit.
#[tactic(auto, using(crate::proofs::Small::widest_least, crate::proofs::Small::widest_most, ir_tree::proofs::Layouts::rounded_least))]
fn struct_size(packed: bool, parts: &[Measure]) -> Option<u64>
    requires { AreSmall parts.now }
    ensures { SomeIff result (struct_size packed parts.now ≤ 2 ^ 31) (struct_size packed parts.now) }
{
    let end = end_of(packed, parts)?;
    if packed {
        return Some(end);
    }
    let align = widest(parts);
    let size = (end + (align - 1)) / align * align;
    if size > MOST { None } else { Some(size) }
}

#[tactic(auto, using(crate::proofs::Small::widest_least, crate::proofs::Small::widest_most))]
fn struct_align(packed: bool, parts: &[Measure]) -> u64
    requires { AreSmall parts.now }
    ensures given { result ≡ struct_align packed parts.now }
    ensures least { 1 ≤ result }
    ensures most { result ≤ 8 }
{
    if packed { 1 } else { widest(parts) }
}

/// A structure of these parts.
#[tactic(auto, using(crate::proofs::Small::deepest_most))]
pub fn structure_of(line: u32, packed: bool, parts: &[Measure]) -> Result<Measure, ResolveError>
    requires { AreSmall parts.now }
    ensures given { ResolvesTo (λ m. m) result (measures.structure_of line packed parts.now) }
    ensures small { IfOk result (λ m. IsSmall m) }
{
    match struct_size(packed, parts) {
        None => Err(limit(line)),
        Some(size) => within(line, size, struct_align(packed, parts), deepest(parts) + 1),
    }
}
