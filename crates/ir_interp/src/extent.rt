//! Whether shapes are laid out (LangRef, "Data Layout"): whether each shape within has at most 2^31 bytes.
ghost use Rattle.std.specs.Prelude.{◌≡◌, ◌↔◌, ◌*◌, ◌≤◌, ◌<◌, ◌^◌, IsTrue, IfSome, None};
ghost use Rattle.ir_tree.specs.Forms.{forms_of, structure};
ghost use Rattle.ir_tree.specs.Layout as layout;

use ir_tree::{Shape, ShapeNode, align_of, size_of};

/// The most bytes of a shape.
const MOST: u64 = 2_147_483_648;

/// Whether so many elements of a size have at most 2^31 bytes.
fn holds(count: u64, size: u64) -> bool
    ensures { IsTrue result ↔ count * size ≤ 2 ^ 31 }
{
    match count.checked_mul(size) {
        Some(bytes) => bytes <= MOST,
        None => false,
    }
}

/// The least multiple of the alignment from a place on.
fn rounded(place: u64, align: u64) -> u64
    requires least { 1 ≤ align }
    requires most { align ≤ 8 }
    requires near { place ≤ 2 ^ 31 }
    ensures { result ≡ layout.rounded place align }
{
    (place + (align - 1)) / align * align
}

/// Where a part begins that comes behind this place.
#[tactic(auto, using(ir_tree::proofs::Layouts::align_least, ir_tree::proofs::Layouts::align_most))]
fn begin_of(packed: bool, place: u64, part: &Shape) -> u64
    requires laid { layout.IsLaidOut part.now }
    requires near { place ≤ 2 ^ 31 }
    ensures { result ≡ layout.begins packed place part.now }
{
    if packed {
        place
    } else {
        rounded(place, align_of(part))
    }
}

/// The end of the parts of a struct; None where it is past 2^31.
fn end_of(packed: bool, parts: &[Shape]) -> Option<u64>
    requires laid { layout.AreLaidOut (forms_of parts.now) }
    ensures some { IfSome result (λ end. (end ≡ layout.ends packed 0 (forms_of parts.now)) × (end ≤ 2 ^ 31)) }
    ensures none { result ≡ None → 2 ^ 31 < layout.ends packed 0 (forms_of parts.now) }
{
    let mut end = 0;
    for part in parts {
        end = begin_of(packed, end, part) + size_of(part);
        if end > MOST {
            return None;
        }
    }
    Some(end)
}

/// The greatest alignment of the parts.
#[tactic(auto, using(ir_tree::proofs::Layouts::max_widest))]
fn widest(parts: &[Shape]) -> u64
    requires laid { layout.AreLaidOut (forms_of parts.now) }
    ensures { result ≡ layout.widest (forms_of parts.now) }
{
    let mut most = 1;
    for part in parts {
        most = most.max(align_of(part));
    }
    most
}

/// Whether a struct of parts that are laid out has at most 2^31 bytes.
fn holds_parts(packed: bool, parts: &[Shape]) -> bool
    requires laid { layout.AreLaidOut (forms_of parts.now) }
    ensures { IsTrue result ↔ layout.size (structure packed (forms_of parts.now)) ≤ 2 ^ 31 }
{
    match end_of(packed, parts) {
        Some(end) => {
            if packed {
                true
            } else {
                rounded(end, widest(parts)) <= MOST
            }
        }
        None => false,
    }
}

/// Whether a shape is laid out. Takes a pass over the shape for each level of it.
#[cycle(laid)]
pub(crate) fn is_laid_out(shape: &Shape) -> bool
    ensures { IsTrue result ↔ layout.IsLaidOut shape.now }
{
    match shape.node() {
        ShapeNode::Int(width) => 8 <= *width && *width <= 64,
        ShapeNode::Ptr => true,
        ShapeNode::Array(count, of) => {
            if is_laid_out(of) {
                holds(*count, size_of(of))
            } else {
                false
            }
        }
        ShapeNode::Struct(packed, parts) => {
            if are_laid_out(parts) {
                holds_parts(*packed, parts)
            } else {
                false
            }
        }
    }
}

/// Whether parts are laid out.
#[cycle(laid)]
fn are_laid_out(parts: &[Shape]) -> bool
    ensures { IsTrue result ↔ layout.AreLaidOut (forms_of parts.now) }
{
    for part in parts {
        if !is_laid_out(part) {
            return false;
        }
    }
    true
}
